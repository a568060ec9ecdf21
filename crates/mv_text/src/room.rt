// The size of a piece.

/// How many bytes are asked for at once, and how many wait at most to be written at once.
pub const ROOM: usize = 4096;

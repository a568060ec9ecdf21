// How large a graph may be.

/// The greatest variable that a graph may have, 2^22 - 1.
pub const MOST_VARIABLES: u32 = 4194303;

/// How many inputs a graph may have.
pub const MOST_INPUTS: usize = 256;

/// How many outputs a graph may have.
pub const MOST_OUTPUTS: usize = 256;

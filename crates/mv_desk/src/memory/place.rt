// Where a slot stands in the files.
use super::bytes::Bytes;

/// What a slot has of the files.
#[derive(Drop)]
pub enum Place {
    Closed,
    /// Open for writing, under no name.
    Printing { written: Bytes },
    /// Open for reading, so many bytes into a file.
    Reading { file: usize, at: usize },
    Writing { file: usize, written: Bytes },
    /// Open for reading, under a name that isn't held.
    Absent,
}

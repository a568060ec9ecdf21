// Faults of inserting and removing.
use thiserror::Error;

/// Why a fact isn't inserted.
#[derive(Clone, Copy, Debug, PartialEq, Eq, Error)]
pub enum InsertFail {
    /// The id is live.
    #[error("the id is in use")]
    IdUsed,
    /// Out of memory.
    #[error("want of memory")]
    Memory,
}

/// No fact with this id is live.
#[derive(Clone, Copy, Debug, PartialEq, Eq, Error)]
#[error("no such id")]
pub struct NoSuchId;

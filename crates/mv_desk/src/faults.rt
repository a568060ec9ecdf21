// Why a call on a desk fails.
use thiserror::Error;

/// Why the front of a file isn't read.
#[derive(Clone, Copy, Debug, PartialEq, Eq, Error)]
pub enum ReadFault {
    /// A read failed.
    #[error("a read failed")]
    Fault,
    #[error("want of memory")]
    Memory,
}

/// A write failed.
#[derive(Clone, Copy, Debug, PartialEq, Eq, Error)]
#[error("a write failed")]
pub struct WriteFault;

// Why a line of a text isn't read.
use thiserror::Error;

/// Why a line of a certificate isn't read.
#[derive(Clone, Copy, Debug, PartialEq, Eq, Error)]
pub enum LineFail {
    /// It isn't spelled as a line.
    #[error("text")]
    Text,
    /// A number of it is out of range.
    #[error("range")]
    Range,
    /// A read failed.
    #[error("a read failed")]
    Fault,
    /// The line, or the file, is longer than its limit.
    #[error("too long")]
    TooLong,
    #[error("want of memory")]
    Memory,
}

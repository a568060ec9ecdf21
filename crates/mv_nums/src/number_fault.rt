// Why digits are no number.
use thiserror::Error;

/// Why a text is no decimal number below 2^128.
#[derive(Clone, Copy, Debug, PartialEq, Eq, Error)]
pub enum NumberFault {
    /// There is no byte.
    #[error("no digits")]
    Empty,
    /// Some byte is no decimal digit.
    #[error("not a decimal digit")]
    Digit,
    /// All bytes are digits, and the number is at least 2^128.
    #[error("a number of more than 128 bits")]
    TooBig,
}

// Why a certificate isn't begun.
use mv_text::LineFail;
use thiserror::Error;

/// Why the header of a clause certificate isn't read.
#[derive(Clone, Copy, Debug, PartialEq, Eq, Error)]
#[error("line {line} of the clauses: {why}")]
pub struct StartFail {
    /// the line that is refused or wasn't read, from 1
    pub line: u64,
    pub why: LineFail,
}

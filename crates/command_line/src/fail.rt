// Faults of words.
use std::alloc::AllocError;
use thiserror::Error;

/// Why words weren't read.
#[derive(Clone, Copy, Debug, PartialEq, Eq, Error)]
pub enum WordsFail {
    /// They ask for nothing.
    #[error("usage")]
    Usage,
    #[error("want of memory")]
    Memory,
}

impl From<AllocError> for WordsFail {
    ghost use Rattle.std.specs.Prelude.{◌≡◌};
    ghost use Rattle.command_line.specs.declared.fail.WordsFail.TheVariants as fail;

    ghost from_gives = { λ _ e. e ≡ fail.Memory };

    fn from(_: AllocError) -> Self {
        WordsFail::Memory
    }
}

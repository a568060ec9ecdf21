// Why a line is refused.
use graph_core::Memory;
use thiserror::Error;

/// Why a clause isn't added.
#[derive(Clone, Copy, Debug, PartialEq, Eq, Error)]
pub enum AddFail {
    /// No chain leads from its negation to a conflict.
    #[error("not implied")]
    NotImplied,
    #[error("want of memory")]
    Memory,
}

/// No live clause has the set.
#[derive(Clone, Copy, Debug, PartialEq, Eq, Error)]
#[error("no such clause")]
pub struct NoSuchClause;

impl From<Memory> for AddFail {
    ghost use Rattle.std.specs.Prelude.{◌≡◌};
    ghost use Rattle.drup_checker.specs.declared.fault.AddFail.TheVariants as fail;

    ghost from_gives = { λ _ e. e ≡ fail.Memory };

    fn from(_memory: Memory) -> AddFail {
        AddFail::Memory
    }
}

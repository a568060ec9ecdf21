// Why a cut is refused, or why blocks are.
use std::alloc::AllocError;
use thiserror::Error;

/// Why a cut isn't grafted onto a graph.
#[derive(Clone, Copy, Debug, PartialEq, Eq, Error)]
pub enum GraftFail {
    /// There is no pair, or the sums end neither at the last column nor at the one before it.
    #[error("columns")]
    Columns,
    /// The first pair, from 0, with a literal whose variable is neither 0, an input nor a gate.
    #[error("literal")]
    Literal(u32),
    /// Out of memory.
    #[error("want of memory")]
    Memory,
}

impl From<AllocError> for GraftFail {
    ghost use Rattle.std.specs.Prelude.{◌≡◌};
    ghost use Rattle.ripple_graft.specs.declared.fault.GraftFail.TheVariants as fail;

    ghost from_gives = { λ _ e. e ≡ fail.Memory };

    fn from(_error: AllocError) -> GraftFail {
        GraftFail::Memory
    }
}

/// Why blocks aren't grafted onto a graph.
#[derive(Clone, Copy, Debug, PartialEq, Eq, Error)]
pub enum BlocksFail {
    /// The first block at fault, from 0: it has no pair, or one of its columns isn't there or is replaced by a block
    /// before.
    #[error("columns of block {0}")]
    Columns(u32),
    /// The first block at fault and in it the first pair, both from 0, with a literal whose variable is neither 0, an
    /// input nor a gate of the graph or of a block before.
    #[error("pair {1} of block {0}")]
    Literal(u32, u32),
    /// Out of memory.
    #[error("want of memory")]
    Memory,
}

// How many bits the operands have, and whether there is an addend.

/// How many bits two operands have, and whether there is an addend, which has as many as both together.
#[derive(Clone, Copy, Debug, PartialEq, Eq)]
pub enum Widths {
    /// Both operands have as many bits: half of the inputs are those of a and b each, or with an addend a quarter.
    Equal { add: bool },
    /// The first a inputs are the bits of a, the next b those of b, and the others those of an addend. Both widths are
    /// from 1 to 64, or no graph has such operands.
    Given { a: u32, b: u32, add: bool },
}

impl Widths {
    ghost use Rattle.std.specs.Prelude.{◌≡◌};
    ghost use Rattle.graph_core.specs.Graph.Operands.{has_addend};

    /// Whether there is an addend.
    pub fn has_addend(self) -> bool
        ensures { result ≡ has_addend self }
    {
        match self {
            Widths::Equal { add } => add,
            Widths::Given { add, .. } => add,
        }
    }
}

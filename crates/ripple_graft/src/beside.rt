// What stands beside a graph: gates in order, and then outputs.
use crate::cut::Pairs;
use graph_core::Lit;
use std::alloc::Global;
use std::marker::Model;

/// Gates beside a graph, and literals that take the place of its outputs.
#[derive(Debug, Drop)]
pub struct Beside {
    /// the two literals that each gate is the conjunction of
    pub gates: Pairs,
    pub outputs: Outputs,
}

impl Beside {
    ghost use Rattle.std.specs.Prelude.{◌≡◌};
    ghost use Rattle.ripple_graft.specs.Beside.{nothing};

    /// No gate and no output.
    pub fn nothing(alloc: Global) -> Beside
        ensures { result ≡ nothing }
    {
        Beside {
            gates: Pairs::from_vec(Vec::new(alloc)),
            outputs: Outputs::from_vec(Vec::new(alloc)),
        }
    }
}

/// Columns in order, each with the literal that takes the place of its output.
#[derive(Debug, Drop)]
pub struct Outputs {
    items: Vec<(u32, Lit)>,
}

impl Model for Outputs {
    ghost use Rattle.std.specs.Prelude.{ℕ, List};
    ghost use Rattle.graph_core.specs.declared.literal.Lit.{Lit};

    ghost Value = { List (ℕ × Lit) };

    ghost view = { λ o. o.items.items };
}

impl Outputs {
    ghost use Rattle.std.specs.Prelude.{◌≡◌};

    pub fn from_vec(items: Vec<(u32, Lit)>) -> Outputs
        ensures { result ≡ items.items }
    {
        Outputs { items }
    }

    pub fn into_vec(self) -> Vec<(u32, Lit)>
        ensures { result.items ≡ self }
    {
        self.items
    }

    pub fn as_slice(&self) -> &[(u32, Lit)]
        ensures { result.now ≡ self.now }
    {
        &self.items
    }
}

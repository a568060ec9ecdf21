// Where a ripple-carry adder replaces columns.
use graph_core::Lit;
use std::marker::Model;

/// A final adder: its first column, and the two literals that each of its positions adds, lowest column first.
#[derive(Debug, Drop)]
pub struct Cut {
    /// the first column that is replaced, from 0
    pub lo: u32,
    pub pairs: Pairs,
}

/// Pairs of literals in order.
#[derive(Debug, Drop)]
pub struct Pairs {
    items: Vec<(Lit, Lit)>,
}

impl Model for Pairs {
    ghost use Rattle.std.specs.Prelude.{List};
    ghost use Rattle.graph_core.specs.declared.literal.Lit.{Lit};

    ghost Value = { List (Lit × Lit) };

    ghost view = { λ p. p.items.items };
}

impl Pairs {
    ghost use Rattle.std.specs.Prelude.{◌≡◌};

    pub fn from_vec(items: Vec<(Lit, Lit)>) -> Pairs
        ensures { result ≡ items.items }
    {
        Pairs { items }
    }

    pub fn into_vec(self) -> Vec<(Lit, Lit)>
        ensures { result.items ≡ self }
    {
        self.items
    }

    pub fn as_slice(&self) -> &[(Lit, Lit)]
        ensures { result.now ≡ self.now }
    {
        &self.items
    }
}

// The variables of a product, as a caller gives them.
ghost use Rattle.std.specs.Prelude.{◌≡◌, ◌∷◌, ◌++◌, [], IfOk, OnOk};

use crate::monomial::{self, Monomial};
use graph_core::Memory;
use smallvec::SmallVec;
use std::alloc::Global;
use std::marker::Model;

/// Variables in any order, of which some may be repeated. Up to four take no memory of their own.
#[derive(Debug, Drop)]
pub struct Variables {
    items: Monomial,
}

impl Model for Variables {
    ghost use Rattle.std.specs.Prelude.{List, ℕ};

    ghost Value = { List ℕ };

    ghost view = { λ vs. vs.items.items };
}

impl Variables {
    /// No variables: their product is 1.
    #[inline(always)]
    pub fn new(alloc: Global) -> Variables
        ensures { result ≡ [] }
    {
        Variables {
            items: SmallVec::new(alloc),
        }
    }

    /// The variables of a list.
    #[inline(always)]
    pub fn of(alloc: Global, variables: &[u32]) -> Result<Variables, Memory>
        ensures { IfOk result (λ vs. vs ≡ variables.now) }
    {
        let items = monomial::copy(alloc, variables)?;
        Ok(Variables { items })
    }

    /// One more variable, after the others.
    #[inline(always)]
    pub fn push(&mut self, v: u32) -> Result<(), Memory>
        ensures { OnOk result (self.new ≡ self.old ++ v ∷ []) }
    {
        self.items.push(v)?;
        Ok(())
    }

    #[inline(always)]
    pub(crate) fn as_slice(&self) -> &[u32]
        ensures { result.now ≡ self.now }
    {
        self.items.as_slice()
    }
}

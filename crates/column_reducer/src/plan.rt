// A plan, as its steps over one extended graph.
ghost use Rattle.std.specs.Prelude.{◌≡◌};

use frontier_core::Step;
use ripple_graft::Extended;
use std::marker::Model;

/// Steps over an extended graph, each of which leaves a frontier, the last one that of all columns and gates.
#[derive(Debug, Drop)]
pub struct Plan<'a> {
    pub(crate) extended: &'a Extended<'a>,
    pub(crate) steps: Vec<Step>,
    /// how many steps come before the first frontier that counts
    pub(crate) uncounted: usize,
}

impl<'a> Model for Plan<'a> {
    ghost use Rattle.column_reducer.specs.Reducing.{IsPlanned, Planned, planned};

    ghost Value = { Planned };

    ghost view = { λ p. planned p.extended.now p.steps.items p.uncounted };

    ghost invariant = { λ p. IsPlanned (planned p.extended.now p.steps.items p.uncounted) };
}

impl<'a> Plan<'a> {
    ghost use Rattle.column_reducer.specs.Reducing.{IsPlanned};

    /// The extended graph.
    pub fn extended(&self) -> &'a Extended<'a>
        ensures { result.now ≡ self.now.extended }
    {
        self.extended
    }

    /// The steps in their order.
    pub fn steps(&self) -> &[Step]
        ensures steps { result.now ≡ self.now.steps }
        ensures plan { IsPlanned self.now }
    {
        self.steps.as_slice()
    }

    /// How many steps come before the first frontier that counts: that one counts as step 0.
    pub(crate) fn uncounted(&self) -> usize
        ensures { result ≡ self.now.uncounted }
    {
        self.uncounted
    }
}

// What is decided of a graph, and what a plan comes to.
use crate::difference::Difference;
use crate::verdict::Tried;
use column_reducer::Plan;
use pair_core::Pair;

/// What is decided of a graph: nothing is written before.
#[derive(Drop)]
pub enum Decision {
    /// The graph does what is claimed, as these certificates show.
    Proved(Pair),
    /// As of a `Verdict`.
    Wrong(Difference),
    Undecided {
        tried: Vec<Tried>,
        plain_step: u64,
        plain_size: u64,
        seen: Option<Difference>,
    },
}

/// What the plain plan comes to.
#[derive(Drop)]
pub(crate) enum Plainly {
    Decided(Decision),
    /// The first frontier above the budget, and how many monomials that has.
    Passed { step: u64, size: u64 },
}

/// What one plan comes to.
#[derive(Drop)]
pub(crate) enum Outcome<'a> {
    Decided(Decision),
    /// A step left a frontier above the budget, and how many monomials that has.
    Passed {
        plan: Plan<'a>,
        step: u64,
        size: u64,
    },
}

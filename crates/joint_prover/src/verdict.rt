// The ends of a verification.
use crate::difference::Difference;
use command_core::Stop;
use mv_desk::Slot;

/// What `verify` says of a graph.
#[derive(Debug, Drop)]
pub enum Verdict {
    /// The graph does what is claimed, and both certificates were written.
    Proved {
        /// the first of them that is past the limits, if one is: `check` takes no such pair
        too_long: Option<Slot>,
    },
    /// The least operands, and addend where there is one, on which the graph differs.
    Wrong(Difference),
    /// All plans passed the budget: what was tried before the plain one, and the plain order's first frontier above it.
    Undecided {
        tried: Vec<Tried>,
        plain_step: u64,
        plain_size: u64,
        /// numbers on which the graph was seen to differ, if some are known
        seen: Option<Difference>,
    },
    /// There is no such answer. With a write fault what is there is a front part of a certificate.
    Stopped(Stop),
}

/// A plan that passed the budget: a frontier of it above the budget, and how many monomials that has.
#[derive(Debug, Drop)]
pub struct Tried {
    /// whether it is over the graph with an adder in place of its final stage
    pub rewritten: bool,
    /// the columns that were added, from 0, the latest first
    pub columns: Vec<u32>,
    /// the variables of the gates that were eliminated, the latest first
    pub gates: Vec<u32>,
    pub size: u64,
}

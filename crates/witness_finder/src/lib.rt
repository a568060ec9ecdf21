//! The least operands, with their addend where there is one, at which a polynomial over the inputs isn't 0.
//!
//! `least` answers None exactly where the polynomial is 0 at every assignment, else the numbers with the fewest one
//! bits at which it isn't 0, ties by the lexicographically least list of input positions. It looks at each monomial
//! once, evaluates nothing and takes no memory: the variables of a monomial that no other one precedes are the answer.
//!
//! *Least nonzero*, *precedes*: `LeastDifference` of `frontier_core`.
#![tactic(auto)]

mod comparison;
mod ones;
mod search;

pub use search::least;

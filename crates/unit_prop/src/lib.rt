//! Unit propagation over a changing list of clauses, by watched literals.
//!
//! `propagate` answers a conflict exactly where a chain of live clauses leads to one; else every consequence stands.
//! After `new` and `add` nothing here takes memory. Two functions look at a few clauses alone, and say no more than these
//! show: `is_refuted_near` finds a chain that refutes some literals, whose list takes what comes of them; and
//! `may_have_within` that no live clause is within that of two literals.
//!
//! *Live*: added and not removed. *Stands*: assumed or propagated (`specs/Standing.antt`). *Chain*: each clause but the
//! last is unit under what stands and adds its literal; the last is false (`specs/UnitPropagation.antt` of
//! `clause_core`).
#![tactic(auto)]

mod assumed;
mod ground;
mod kept;
mod literal;
mod near;
mod propagator;
mod reference;
mod trail;
mod visits;
mod watches;

pub use assumed::Assumed;
pub use propagator::Propagator;
pub use reference::{Mark, Ref};

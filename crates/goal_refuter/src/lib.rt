//! Refutes the negations of goals over the clauses of gates, by a solver and within a budget of conflicts.
//!
//! `refute_goals` has the negation of each goal refuted, one after the other, and answers one of three: the log, whose
//! lines are a lawful clause certificate that shows each goal; an evaluation of the gates at which some goal fails; or
//! a spent budget with the log that spent it. `refute` is one goal. `refute_behind` does the same after a log of
//! lemmas, such as those by which `show_equal` shows two literals to be equal: these count among the conflicts
//! (`begun`), and it is true only where each literal implies the other by unit propagation (`shown`). `refute_alike`
//! may delete lemmas on the way, as `forget` does before the goals: where each clause is as often live as it was given
//! and left. `differ_at` gives an evaluation at which a goal fails, where values that are thought to show that are
//! told.
//!
//! *Log of refutations*, *spent*: `specs/Refutations.antt`. *Outcome*: `specs/Refuting.antt`. *Begun*:
//! `specs/Beginnings.antt`. *Lemma*, *lawful lines*: `Log` and `ClauseLines` in `specs/` of `clause_core`.
#![tactic(auto)]

mod differing;
mod forgetting;
mod goals;
mod laws;
mod refutation;
mod refuting;
mod showing;
mod solver;

pub use differing::differ_at;
pub use forgetting::forget;
pub use goals::{pair_goals, push_goals};
pub use laws::refuted_is_lawful;
pub use refutation::refute;
pub use refuting::{Outcome, refute_alike, refute_behind, refute_goals};
pub use showing::show_equal;
pub use solver::solver_of;

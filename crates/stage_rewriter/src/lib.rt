//! Putting a ripple-carry adder in place of a graph's final stage, or gates beside a graph, where a solver shows that
//! the outputs stay the same.
//!
//! `rewrite` looks for the final stage, grafts the adder, holds the goals against a few inputs, and has the negation of
//! each goal refuted, column by column upward, within a budget of conflicts. What it answers is one of four kinds, each
//! by its cause: the lines of a lawful clause certificate, no final stage, numbers at which an output differs, or a
//! spent budget with the log that spent it. `rewrite_at` does the same with any cut in place of the final stage.
//! `place_beside` does it with gates beside the graph and literals in place of its outputs, after a sweep.
//!
//! *Final stage*: `specs/FinalStage.antt` of `adder_finder`. *Goals*, *lawful lines*, *lemma*: `GateClauses`,
//! `ClauseLines` and `Log` in `specs/` of `clause_core`. *Spent*: `specs/Refutations.antt` of `goal_refuter`.
//! *Rewriting*: `specs/Rewriting.antt`. *Placing*: `specs/Placing.antt`.
#![tactic(auto)]

mod cone;
mod difference;
mod goals;
mod near;
mod outcome;
mod placing;
mod resting;
mod rewriting;
mod seen;

pub use placing::{Placed, Placing, place_beside};
pub use rewriting::{Rewriting, rewrite, rewrite_at};

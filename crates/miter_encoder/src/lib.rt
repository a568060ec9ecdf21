//! The clauses of gates, and the two goals of each column or pair of outputs.
//!
//! An assignment meets all gate clauses exactly where it is an evaluation, and all goals exactly where the old and the
//! new output of each replaced column, or the two outputs of each pair, are equal (`meaning`). Clauses and goals name
//! the graph's variables alone (`in_range`). Each call takes memory for what it answers.
//!
//! *Gate clauses*, *goals*: by `specs/GateClauses.antt` of `clause_core`, where constants are dropped. A goal that a
//! constant makes true is *met* (`specs/ColumnGoals.antt`).
#![tactic(auto)]

mod column_goals;
mod gates;
mod goal;
mod literals;

pub use column_goals::{goals, goals_of};
pub use gates::{gate_clauses, gate_clauses_of};
pub use goal::{Goal, Goals};
pub use literals::{clause_of, signed};

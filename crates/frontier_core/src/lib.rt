//! Frontiers of a multiplier's columns and gates, plans, the lines of a reduction, and the least difference:
//! definitions with their laws.
//!
//! A *frontier* is a set of columns that were added and a set of gates that were eliminated. Its function is the sum of
//! 2^k times (output k minus what column k is claimed to be) over the added columns, modulo 2 ^ the number of outputs,
//! in which the eliminated gates are computed from the other variables (`specs/Frontier.antt`). A *plan* is a list of
//! steps of which each leaves a frontier (`Plan`); the *plain order* eliminates gates by level (`PlainOrder`). There is
//! one plain order, each front of it is a frontier, and each frontier has a size. At the end the function is the
//! graph's value minus what it is claimed to be (`LastFrontier`), and it is 0 everywhere exactly where the graph meets
//! the claim; else its least term gives the least difference (`LeastDifference`).
//!
//! The *gap* is the part of the specification that the added columns make up, minus the frontier's function. Each step
//! changes it by an axiom times a polynomial: one line may state what a run of steps added (`Pending`), and a last
//! line adds the lines up (`Totals`).
//!
//! There is no code but the enum of steps. A law is the contract of a public function with an empty body. What hangs on
//! the kind of claim (a product of two operands) is told by `Columns` and proved in `proofs/ColumnClaims` and
//! `proofs/NotZero` alone.
#![tactic(auto)]

mod end_laws;
mod frontier_laws;
mod gathering_laws;
mod line_laws;
mod order_laws;
mod plan_laws;
mod size_laws;
mod step;
mod substitution_laws;

pub use end_laws::{
    difference_is_of_numbers, first_difference_precedes, last_frontier_at_inputs,
    last_frontier_decides, last_frontier_gives_least, last_frontier_is_error,
    last_frontier_is_over_inputs, least_difference_is_one, least_term_gives_inputs,
    least_term_is_least,
};
pub use frontier_laws::{
    adding_adds_column, adding_leaves_frontier, claims_are_of_operands, columns_make_claim,
    eliminating_computes_gate, eliminating_leaves_frontier, first_frontier, frontier_is_set,
};
pub use gathering_laws::{
    pending_adds_column, pending_eliminates, pending_starts, spare_is_lawful, total_ends,
};
pub use line_laws::{
    adding_keeps_rest_line, axioms_are_live, eliminating_keeps_rest_line, lines_grow,
    new_line_is_live, rest_line_ends, rest_line_starts, specification_is_not_zero,
    zero_rest_closes,
};
pub use order_laws::{
    plain_order_exists, plain_order_finishes, plain_order_is_one, plain_order_leaves_frontiers,
};
pub use plan_laws::{plain_plan_is_plan, plan_leaves_frontiers, step_is_pushed};
pub use size_laws::{frontier_has_size, function_has_polynomial, linear_is_small, size_is_at_most};
pub use step::Step;
pub use substitution_laws::{
    eliminating_replaces, eliminating_substitutes, quotient_splits, splitting_substitutes,
    substituting_sets, unused_variable_is_absent, variable_is_taken_out,
};

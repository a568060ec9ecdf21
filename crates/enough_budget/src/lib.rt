//! How small the frontiers stay over made graphs with a ripple-carry adder, when plans go by their groups: definitions
//! with their laws.
//!
//! Over a made graph of n bits, its gates' operands in either order, each frontier of steps that go by the groups of
//! its gates has at most 8 * n * n + 64 monomials (`specs/MadeSlices.antt`), and the last frontier of every plan is 0.
//! The groups are its adders and single products, and its gates are listed each after those that it reads
//! (`MadeGroups`). So no slice plan over it passes a budget of that many monomials (`Budgets`,
//! `made_budget_is_enough`).
//!
//! There is no code. A law is the contract of a public function with an empty body.
#![tactic(auto)]

mod laws;

pub use laws::{
    few_variables_are_small, made_budget_is_enough, made_gates_are_in_order,
    made_groups_are_adders, made_rest_is_zero, made_slices_are_small, slice_plans_are_small,
};

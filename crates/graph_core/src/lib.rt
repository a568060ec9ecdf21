//! And-inverter graphs, their operands and their files: the definitions on which all else stands, with their laws.
//!
//! `Graph::build` gives the graph of some lists exactly where they have no fault, and else their first fault. What is
//! built is acyclic, and has at most `MOST_VARIABLES` variables, `MOST_INPUTS` inputs and `MOST_OUTPUTS` outputs. A
//! graph tells of each variable its gate, its level and how often it is read, and writes the values of all variables,
//! which are its evaluation (`value_into`). A `Claim` is what is claimed of a graph: how its inputs make two operands,
//! whether these are signed, and whether there is an addend. `Operands` tells which input is then which bit;
//! `Graph::value_on` gives the value on two operands, `Graph::sum_on` that with an addend. Only these two,
//! `Graph::build` and the makers of `Operands` take memory. `Graph::input` and `Operands::of` are public for other
//! programs; no command uses them.
//!
//! The contracts of all crates above cite the words of `specs/`: graphs, their evaluation, operands and the product,
//! and graphs with gates that stand for a final stage (`Graph` and its files), what bytes spell and how a text is
//! refused (`Text`, `Aiger`). A law is the contract of a public function with an empty body. Laws here: no bytes spell
//! two graphs, and bytes that spell none have one first refusal; what holds on every evaluation holds for all values of
//! the inputs.
#![tactic(auto)]

mod bounds;
mod claim;
mod evaluation_laws;
mod fault;
mod file_laws;
mod gate;
mod graph;
mod literal;
mod memory;
mod numbers;
mod operands;
mod order;
mod profile;
mod sign;
mod widths;

pub use bounds::{MOST_INPUTS, MOST_OUTPUTS, MOST_VARIABLES};
pub use claim::Claim;
pub use evaluation_laws::{
    claim_is_done, claim_is_product, doing_is_adding, doing_is_multiplying, evaluation_is_one,
    evaluations_suffice, one_level, sides_are_inputs, sides_are_narrow, sides_read_inputs,
    spelled_shape, whole_products,
};
pub use fault::{BuildFail, Field, GraphFault};
pub use file_laws::{
    ascii_text_spells, binary_text_spells, fault_is_found, graph_is_read, lists_are_read,
    no_fault_is_found, not_spelled_and_refused, one_graph, one_refusal, refusal_is_read,
    shown_faults, spelled_or_refused,
};
pub use gate::Gate;
pub use graph::Graph;
pub use literal::Lit;
pub use memory::Memory;
pub use numbers::Numbers;
pub use operands::Operands;
pub use order::Order;
pub use profile::Profile;
pub use sign::Sign;
pub use widths::Widths;

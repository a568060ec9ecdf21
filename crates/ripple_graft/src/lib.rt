//! Extended graphs: a graph, gates that are added to it, and the output columns that those gates replace.
//!
//! A certificate speaks of an extended graph. `Extended::without_cut` is the graph alone; `graft` puts a ripple-carry
//! adder in place of its last outputs, or tells the first fault of the cut; `graft_blocks` puts several of them in
//! place of any outputs, or tells the first block at fault and its first fault. Each fault is told exactly where it is.
//! `graft_beside` puts single gates beside an extended graph, and literals in place of outputs. Only these, and the
//! methods `with_..` that they call, take memory. `is_known` says which literals a graph has.
//!
//! Laws: each block adds on every evaluation; each evaluation of a graph goes on to one with the blocks, or with what
//! stands beside; blocks one after the other, and what stands beside, keep a graph without faults.
//!
//! *Extended graph*, *column*: the records `Extended` and `Column` of `graph_core`, which contracts see. *New
//! outputs*: those of the graph, but for the replaced columns (`specs/Extension.antt`). *Cut*, `with_cut`: the adder
//! and the graph with it (`specs/Ripple.antt`, `specs/Blocks.antt`). *Beside*: gates that are numbered on, each the
//! conjunction of two literals, and new outputs (`specs/Beside.antt`).
#![tactic(auto)]

mod added;
mod adder;
mod beside;
mod block;
mod columns;
mod cut;
mod extended;
mod fault;
mod grafting;
mod laws;
mod placing;
mod replacing;

pub use beside::{Beside, Outputs};
pub use block::{Block, BlockList};
pub use cut::{Cut, Pairs};
pub use extended::Extended;
pub use fault::{BlocksFail, GraftFail};
pub use grafting::{graft, graft_blocks, is_known};
pub use laws::{
    beside_extends, blocks_add, blocks_are_joined, blocks_extend, cut_is_block, cut_replaces,
    evaluation_goes_on, evaluations_extend, evaluations_go_on_beside, graft_extends,
    outputs_are_new, ripple_adds, whole_is_well_formed,
};
pub use placing::graft_beside;

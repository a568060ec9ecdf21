// What is kept of an extended graph beside the graph: all gates, and the columns that are replaced.
use graph_core::{Gate, Lit};

// A column with the graph's output and the new one.
#[derive(Clone, Copy, Debug, Drop)]
pub struct Replaced {
    pub number: u32,
    pub old: Lit,
    pub new: Lit,
}

// Gates after a graph's own, and replaced columns.
#[derive(Debug, Drop)]
pub struct Added {
    // the greatest variable
    pub max: u32,
    // the graph's gates, and then those that were added
    pub gates: Vec<Gate>,
    // in the order in which they were replaced
    pub columns: Vec<Replaced>,
}

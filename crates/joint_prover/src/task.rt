// A graph and what is asked of it, as they travel from plan to plan.
use command_core::Task;
use graph_core::{Graph, Operands};
use mv_desk::Limits;

/// A graph and what is asked of it.
#[derive(Clone, Copy)]
pub(crate) struct Job<'a> {
    pub(crate) graph: &'a Graph,
    /// The operands that the claim names in the graph.
    pub(crate) operands: &'a Operands,
    pub(crate) task: Task,
    /// How long certificates may be that a checker takes.
    pub(crate) limits: Limits,
}

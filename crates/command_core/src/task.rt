// What is asked of a graph.
use graph_core::Claim;

/// What is asked of a graph.
#[derive(Clone, Copy, Debug, PartialEq, Eq)]
pub struct Task {
    /// What is claimed of the graph.
    pub claim: Claim,
    /// The most monomials that a remainder may have.
    pub budget: u64,
    /// How many conflicts the solver may have before a rewriting is given up.
    pub conflicts: u64,
    /// The greatest version of certificates that may be written, 1 to 3.
    pub version: u8,
}

/// The five places at which the program has something open.
#[derive(Clone, Copy, Debug, PartialEq, Eq)]
pub enum Slot {
    /// The graph that is judged.
    Graph,
    /// A second graph.
    Other,
    /// The clause certificate.
    Clauses,
    /// The algebra certificate.
    Algebra,
    /// What the user reads; open for writing from the start.
    Report,
}

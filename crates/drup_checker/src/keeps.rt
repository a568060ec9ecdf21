// What a checker keeps of the clauses that it adds.

/// What a checker keeps of the clauses that it adds.
#[derive(Clone, Copy, Debug, PartialEq, Eq)]
pub enum Keeps {
    Nothing,
    /// The clauses.
    Clauses,
    /// The clauses, and for each which added ones a tight chain for it uses.
    Chains,
}

// What a solver answers.
/// What a solver found.
#[derive(Debug, Drop)]
pub enum Solved {
    /// The clause of the negated assumptions follows by unit propagation over the clauses and what the log left live.
    Refuted,
    /// Values of the variables from 1 on that meet all clauses and assumptions.
    Model(Vec<bool>),
    /// As many lemmas were logged as were allowed, and the assumptions are not refuted by them.
    Spent,
}

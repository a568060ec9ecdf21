// Lines that add and delete clauses.
use crate::Clause;

/// A line of a clause certificate, or of a solver's log.
#[derive(Debug, Drop)]
pub enum Line {
    Add(Clause),
    Delete(Clause),
}

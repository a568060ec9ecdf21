// Clauses that always hold.
ghost use Rattle.std.specs.Prelude.{◌↔◌, IsTrue};
ghost use Rattle.clause_core.specs.UnitPropagation.{IsTautology};

use crate::rup::negation;
use clause_core::Clause;

/// Whether the clause has a variable and its negation.
pub(crate) fn is_tautology(clause: &Clause) -> bool
    ensures { IsTrue result ↔ IsTautology clause.now }
{
    let lits = clause.lits();
    // the literals rise: those before `front` and from `back` on have no negation among them
    let mut front = 0;
    let mut back = lits.len();
    'pairs: while front < back {
        let opposite = negation(lits[back - 1]);
        if lits[front] == opposite {
            return true;
        }
        if lits[front] < opposite {
            front += 1;
        } else {
            back -= 1;
        }
    }
    false
}

// Whether a clause follows by reverse unit propagation.
ghost use Rattle.std.specs.Prelude.{◌≡◌, ◌↔◌, ◌<◌, ◌^◌, nat_abs, neg_ℤ, IfSome, IsNone, IsSome, IsTrue};
ghost use Rattle.clause_core.specs.Clause.{IsClauseInRange};
ghost use Rattle.clause_core.specs.UnitPropagation.{IsRup};
ghost use Rattle.drup_checker.specs.Opposing.{IsClauseMet, IsLiteralOf, Opposes, StandsMore};
ghost use Rattle.unit_prop.specs.Standing.{Assumes, HasNoAssumption, IsSound, live_of};

use clause_core::Clause;
use unit_prop::{Assumed, Propagator};

// Whether the clause follows from the live ones; nothing stays assumed.
pub(crate) fn is_rup(propagator: &mut Propagator, clause: &Clause) -> bool
    requires free { HasNoAssumption propagator.old }
    requires in_range { IsClauseInRange propagator.old.trail.greatest clause.now }
    ensures rup { IsTrue result ↔ IsRup (live_of propagator.old.clauses) clause.now }
    ensures kept { propagator.new ≡ propagator.old }
{
    let mark = propagator.mark();
    let refuted = refutes(propagator, clause);
    propagator.back_to(mark);
    refuted
}

/// Assumes the negation of each literal, up to one that stands.
pub(crate) fn oppose_all(propagator: &mut Propagator, clause: &Clause) -> Option<i32>
    requires free { HasNoAssumption propagator.old }
    requires in_range { IsClauseInRange propagator.old.trail.greatest clause.now }
    ensures opposed { IfSome result (IsClauseMet propagator.new clause.now) }
    ensures follows { IsSome result → IsRup (live_of propagator.old.clauses) clause.now }
    ensures all { IsNone result → Opposes propagator.old propagator.new clause.now }
    ensures begins { StandsMore propagator.old propagator.new }
{
    for &lit in clause.lits() {
        if let Assumed::Opposed = oppose(propagator, lit) {
            return Some(lit);
        }
    }
    None
}

/// The opposite literal.
pub(crate) fn negation(lit: i32) -> i32
    requires { nat_abs lit < 2 ^ 31 }
    ensures { result ≡ neg_ℤ lit }
{
    -lit
}

// whether propagation from the negation of each literal meets a conflict
fn refutes(propagator: &mut Propagator, clause: &Clause) -> bool
    requires free { HasNoAssumption propagator.old }
    requires in_range { IsClauseInRange propagator.old.trail.greatest clause.now }
    ensures rup { IsTrue result ↔ IsRup (live_of propagator.old.clauses) clause.now }
    ensures begins { StandsMore propagator.old propagator.new }
{
    if oppose_all(propagator, clause).is_some() {
        return true;
    }
    propagator.propagate().is_some()
}

// assumes the negation of a literal
fn oppose(propagator: &mut Propagator, lit: i32) -> Assumed
    requires small { nat_abs lit < 2 ^ 31 }
    requires in_range { IsLiteralOf propagator.old.trail.greatest (neg_ℤ lit) }
    ensures stands { Assumes propagator.old (neg_ℤ lit) result propagator.new }
    ensures sound { IsSound propagator.old }
{
    let opposite = negation(lit);
    propagator.assume(opposite)
}

// Visits of the clauses that watch a false literal.
ghost use Rattle.std.specs.Prelude.{
  ◌≡◌,
  ◌≢◌,
  ◌/◌,
  ◌<◌,
  ◌≤◌,
  ◌+◌,
  ◌*◌,
  ◌⊎◌,
  [],
  length,
  neg_ℤ,
  pos,
  IfSome,
  MatchOption,
  Option,
  None,
  Some,
  List,
};
ghost use Rattle.std.specs.List.{All, Contains};
ghost use Rattle.clause_core.specs.Clause.{Clause as Literals};
ghost use Rattle.clause_core.specs.UnitPropagation.{IsUnit};
ghost use Rattle.unit_prop.specs.Literals.{IsLiteral};
ghost use Rattle.unit_prop.specs.Watches.{none};
ghost use Rattle.unit_prop.specs.Trail.{IsLiteralUpTo};
ghost use Rattle.unit_prop.specs.Standing.{clause_at};
ghost use Rattle.unit_prop.specs.Visits.{IsVisitedUpTo, GainsLiterals, IsVisit, Settles, IsChosenWatch, IsFalse, IsPropagating};

use crate::kept::Kept;
use crate::literal::negation;
use crate::trail::Trail;
use crate::watches::{Watches, partner_of};

/// A watch whose literal is false.
#[derive(Clone, Copy)]
pub(crate) struct Watch<'a> {
    clauses: &'a [Kept],
    reference: u32,
    lit: i32,
    /// The other literal that its clause watches, or 0.
    other: i32,
    /// The place of the trail at which the literal became false.
    head: u32,
}

/// What becomes of a watch whose literal is false.
#[derive(Clone, Copy, Debug)]
pub(crate) enum Settled {
    /// A literal of the clause is true, perhaps since now.
    Stays,
    /// This literal isn't false.
    Moves(i32),
    /// Each literal of the clause is false.
    Conflict,
    /// The clause was removed.
    Gone,
}

// A literal of the clause that isn't false, other than this one.
fn replacement(trail: &Trail, lits: &[i32], other: i32) -> Option<i32>
    requires { All (IsLiteralUpTo trail.now.max) lits.now }
    ensures { MatchOption result
        (All (λ l. (l ≡ other) ⊎ Contains trail.now.lits (neg_ℤ l)) lits.now)
        (λ l. Contains lits.now l × (l ≢ other) × (Contains trail.now.lits (neg_ℤ l) → ⊥)) }
{
    for &lit in lits {
        if lit != other && !trail.is_false(lit) {
            return Some(lit);
        }
    }
    None
}

// Looks after the clause of a watch whose literal is false.
fn settle(watch: &Watch<'_>, trail: &mut Trail) -> Settled
    requires { IsVisit watch.now trail.old }
    ensures kept { IsVisitedUpTo watch.now.clauses.now trail.new watch.now.head }
    ensures grows { GainsLiterals trail.old trail.new }
    ensures settles { Settles watch.now trail.old result trail.new }
{
    if watch.other == 0 {
        return Settled::Gone;
    }
    if trail.is_true(watch.other) {
        return Settled::Stays;
    }
    let Some(lits) = watch.clauses[watch.reference as usize].lits() else {
        return Settled::Gone;
    };
    match replacement(trail, lits, watch.other) {
        Some(lit) => Settled::Moves(lit),
        None if !trail.is_false(watch.other) => {
            trail.push(watch.other, watch.reference, watch.head);
            Settled::Stays
        }
        None => Settled::Conflict,
    }
}

// The literal to watch in place of the false one; 0 if the clause was removed. After a conflict it is the same literal.
fn next_literal(watch: &Watch<'_>, trail: &mut Trail, conflict: &mut Option<u32>) -> i32
    requires visit { IsVisit watch.now trail.old }
    requires conflict { IfSome conflict.old (IsFalse watch.now.clauses.now trail.old.lits) }
    ensures kept { IsVisitedUpTo watch.now.clauses.now trail.new watch.now.head }
    ensures grows { GainsLiterals trail.old trail.new }
    ensures earlier { conflict.new ≡ None → conflict.old ≡ None }
    ensures chosen { IsChosenWatch watch.now trail.new conflict.new result }
{
    if conflict.is_some() {
        return watch.lit;
    }
    match settle(watch, trail) {
        Settled::Stays => watch.lit,
        Settled::Moves(lit) => lit,
        Settled::Gone => 0,
        Settled::Conflict => {
            *conflict = Some(watch.reference);
            watch.lit
        }
    }
}

/// Visits the clauses that watch the negation of the literal at a place of the trail, the first place that wasn't
/// visited yet. The nodes of clauses that were removed are taken out. Gives a clause that is false, if there is one.
pub(crate) fn visit(
    clauses: &[Kept],
    watches: &mut Watches,
    trail: &mut Trail,
    at: u32,
) -> Option<u32>
    requires propagating { IsPropagating clauses.now watches.old trail.old at }
    requires place { at < length trail.old.lits }
    ensures grows { GainsLiterals trail.old trail.new }
    ensures kept { MatchOption result
        (IsPropagating clauses.now watches.new trail.new (at + 1))
        (λ r. IsPropagating clauses.now watches.new trail.new at × IsFalse clauses.now trail.new.lits r) }
{
    let false_lit = negation(trail.lit(at));
    let mut conflict = None;
    watches.take_up(false_lit);
    while let Some(node) = watches.next() {
        let other = watches.lit(partner_of(node));
        let watch = Watch {
            clauses,
            reference: node / 2,
            lit: false_lit,
            other,
            head: at,
        };
        let lit = next_literal(&watch, trail, &mut conflict);
        if lit != 0 {
            watches.hang(node, lit);
        }
    }
    conflict
}

/// Visits the clauses for each literal of the trail, also for those that come to stand, up to its end or to a clause
/// that is false.
pub(crate) fn visit_all(
    clauses: &[Kept],
    watches: &mut Watches,
    trail: &mut Trail,
    head: &mut u32,
) -> Option<u32>
    requires { IsPropagating clauses.now watches.old trail.old head.old }
    ensures kept { IsPropagating clauses.now watches.new trail.new head.new }
    ensures grows { GainsLiterals trail.old trail.new }
    ensures outcome { MatchOption result
        (head.new ≡ length trail.new.lits)
        (λ r. IsFalse clauses.now trail.new.lits r) }
{
    while *head < trail.len() {
        let conflict = visit(clauses, watches, trail, *head);
        if conflict.is_some() {
            return conflict;
        }
        *head += 1;
    }
    None
}

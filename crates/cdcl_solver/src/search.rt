// One search: an answer, or a lemma.
ghost use Rattle.std.specs.Prelude.{◌≡◌, ◌<◌, ◌^◌, [], ◌∷◌, IfOk, IsFalse, IsTrue, MatchBool, map, neg_ℤ};
ghost use Rattle.clause_core.specs.Clause.{IsClauseInRange};
ghost use Rattle.clause_core.specs.UnitPropagation.{IsRup};
ghost use Rattle.cdcl_solver.specs.Shows.{HasNoneWithin};
ghost use Rattle.unit_prop.specs.Standing.{Standing, StandsAlone, live_of};
ghost use Rattle.cdcl_solver.specs.Search.{GainsStanding};
ghost use Rattle.cdcl_solver.specs.Solvers.{IsReady};
ghost use Rattle.cdcl_solver.specs.Finding.{Finds};

use crate::conflict::learn;
use crate::descent::{Descent, begin, descend, settle};
use crate::levels::{Levels, stands};
use crate::literal::negation;
use crate::model::values;
use crate::order::Order;
use crate::room::Room;
use crate::solved::Solved;
use clause_core::Clause;
use graph_core::Memory;
use std::alloc::Global;
use unit_prop::Propagator;

/// What a search ends with.
#[derive(Debug, Drop)]
pub(crate) enum Found {
    Answer(Solved),
    /// A clause that follows, and that no live clause is within.
    Lemma(Clause),
    /// Nothing, where a few decisions are enough.
    GivenUp,
}

/// Searches under the assumptions up to the next conflict, from the last moment on or anew. Where a few decisions are
/// enough, it is given up after them, and no model is told.
pub(crate) fn explore(
    alloc: Global,
    max: u32,
    propagator: &mut Propagator,
    order: &mut Order,
    levels: &mut Levels,
    room: &mut Room,
    assumptions: &[i32],
    anew: bool,
    few: bool,
) -> Result<Found, Memory>
    requires ready { IsReady max propagator.old order.old levels.old.base levels.old.marks.items }
    requires assumptions { IsClauseInRange max assumptions.now }
    ensures ready { IsReady max propagator.new order.new levels.new.base levels.new.marks.items }
    ensures clauses { propagator.new.clauses ≡ propagator.old.clauses }
    ensures found { IfOk result (Finds max propagator.old assumptions.now few) }
{
    order.link();
    if !settle(propagator, levels, assumptions, anew)? {
        return Ok(Found::Answer(Solved::Refuted));
    }
    match descend(propagator, order, levels, few)? {
        Descent::GivenUp => Ok(Found::GivenUp),
        Descent::Bottom => {
            if few {
                return Ok(Found::GivenUp);
            }
            Ok(Found::Answer(Solved::Model(values(alloc, propagator, max)?)))
        }
        Descent::Conflict(conflict) => {
            order.save(propagator.trail());
            Ok(Found::Lemma(learn(alloc, propagator, max, conflict, order, room)?))
        }
    }
}

/// Whether the assumptions stand with every consequence; else they are refuted by propagation.
pub(crate) fn is_settled(max: u32, propagator: &mut Propagator, assumptions: &[i32]) -> bool
    requires alone { StandsAlone propagator.old }
    requires max { propagator.old.trail.greatest ≡ max }
    requires signed { max < 2 ^ 31 }
    requires assumptions { IsClauseInRange max assumptions.now }
    ensures same { propagator.new ≡ propagator.old }
    ensures settled { MatchBool result
        (IsRup (live_of propagator.old.clauses) (map neg_ℤ assumptions.now) → ⊥)
        (IsRup (live_of propagator.old.clauses) (map neg_ℤ assumptions.now)) }
{
    let base = propagator.mark();
    let settled = begin(propagator, assumptions);
    propagator.back_to(base);
    settled
}

/// Whether propagation derives each of two literals from the other's negation, or a conflict; where it doesn't, no live
/// clause is within the clause of both. It isn't tried, and is taken not to, where the clauses that watch the first
/// literal show that none is within.
///
/// Which one is negated first is a heuristic: a gate that is false says little, and one that is true says what all
/// below it are.
pub(crate) fn derive_each_other(max: u32, propagator: &mut Propagator, one: i32, other: i32) -> bool
    requires alone { StandsAlone propagator.old }
    requires max { propagator.old.trail.greatest ≡ max }
    requires signed { max < 2 ^ 31 }
    requires range { IsClauseInRange max (one ∷ other ∷ []) }
    ensures same { propagator.new ≡ propagator.old }
    ensures none { IsFalse result → HasNoneWithin (live_of propagator.old.clauses) (one ∷ other ∷ []) }
{
    if !propagator.may_have_within(one, other) {
        return false;
    }
    if one < 0 {
        return derive_both(max, propagator, other, one);
    }
    derive_both(max, propagator, one, other)
}

// The same, the negation of the first one first.
fn derive_both(max: u32, propagator: &mut Propagator, one: i32, other: i32) -> bool
    requires alone { StandsAlone propagator.old }
    requires max { propagator.old.trail.greatest ≡ max }
    requires signed { max < 2 ^ 31 }
    requires range { IsClauseInRange max (one ∷ other ∷ []) }
    ensures same { propagator.new ≡ propagator.old }
    ensures none { IsFalse result → HasNoneWithin (live_of propagator.old.clauses) (one ∷ other ∷ []) }
{
    if !leads_to(max, propagator, one, other) {
        return false;
    }
    leads_to(max, propagator, other, one)
}

// Whether propagation from the negation of one literal derives another one, or a conflict.
fn leads_to(max: u32, propagator: &mut Propagator, one: i32, other: i32) -> bool
    requires alone { StandsAlone propagator.old }
    requires max { propagator.old.trail.greatest ≡ max }
    requires signed { max < 2 ^ 31 }
    requires range { IsClauseInRange max (one ∷ other ∷ []) }
    ensures same { propagator.new ≡ propagator.old }
    ensures none { IsFalse result → HasNoneWithin (live_of propagator.old.clauses) (one ∷ other ∷ []) }
{
    let base = propagator.mark();
    let apart = stand_apart(max, propagator, one, other);
    propagator.back_to(base);
    !apart
}

// Lets the negation of a literal stand with its consequences; whether another one isn't among them, and there is no
// conflict.
fn stand_apart(max: u32, propagator: &mut Propagator, one: i32, other: i32) -> bool
    requires alone { StandsAlone propagator.old }
    requires max { propagator.old.trail.greatest ≡ max }
    requires signed { max < 2 ^ 31 }
    requires range { IsClauseInRange max (one ∷ other ∷ []) }
    ensures grows { GainsStanding propagator.old propagator.new }
    ensures none { IsTrue result → HasNoneWithin (live_of propagator.old.clauses) (one ∷ other ∷ []) }
{
    let assumed = [negation(one)];
    if !begin(propagator, &assumed) {
        return false;
    }
    !stands(propagator, other)
}

// Assumptions, and decisions down to a conflict or to the last variable.
ghost use Rattle.std.specs.Prelude.{◌≡◌, ◌<◌, ◌≤◌, ◌^◌, length, IfOk, List};
ghost use Rattle.std.specs.List.{All};
ghost use Rattle.clause_core.specs.Clause.{IsClauseInRange};
ghost use Rattle.unit_prop.specs.Standing.{Standing, IsSound, IsPropagated, StandsAlone};
ghost use Rattle.cdcl_solver.specs.Search.{BeginsSearch, ExtendsStanding};
ghost use Rattle.cdcl_solver.specs.Levels.{IsStage, Keeps, SettlesAssumptions};
ghost use Rattle.cdcl_solver.specs.Descent.{Descends};
ghost use Rattle.unit_prop.specs.Trail.{signed_variable};

use crate::conflict::Conflict;
use crate::decision::decide;
use crate::levels::Levels;
use crate::order::Order;
use graph_core::Memory;
use unit_prop::{Assumed, Propagator};

// How many decisions a search that may be given up makes before it is.
const FEW: u32 = 100;

/// How a descent ends.
#[derive(Clone, Copy, Debug)]
pub(crate) enum Descent {
    /// Each variable of the order has a value.
    Bottom,
    /// A clause is false.
    Conflict(Conflict),
    /// There were too many decisions.
    GivenUp,
}

/// Lets the assumptions stand with their consequences; false where they are refuted.
pub(crate) fn begin(propagator: &mut Propagator, assumptions: &[i32]) -> bool
    requires alone { StandsAlone propagator.old }
    requires signed { propagator.old.trail.greatest < 2 ^ 31 }
    requires in_range { IsClauseInRange propagator.old.trail.greatest assumptions.now }
    ensures { BeginsSearch propagator.old propagator.new assumptions.now result }
{
    let _start = propagator.mark();
    for &lit in assumptions {
        if let Assumed::Opposed = propagator.assume(lit) {
            return false;
        }
    }
    match propagator.propagate() {
        None => true,
        Some(_) => false,
    }
}

/// Lets the assumptions stand with their consequences: as at the last moment, if they stood then and the search does
/// not go on anew. False where they are refuted.
pub(crate) fn settle(
    propagator: &mut Propagator,
    levels: &mut Levels,
    assumptions: &[i32],
    anew: bool,
) -> Result<bool, Memory>
    requires stage { IsStage propagator.old levels.old.base levels.old.marks.items }
    requires signed { propagator.old.trail.greatest < 2 ^ 31 }
    requires in_range { IsClauseInRange propagator.old.trail.greatest assumptions.now }
    ensures keeps { Keeps propagator.old propagator.new }
    ensures stage { IsStage propagator.new levels.new.base levels.new.marks.items }
    ensures settled { IfOk result (SettlesAssumptions propagator.old propagator.new assumptions.now) }
{
    if levels.resume(propagator, assumptions, anew) {
        return Ok(true);
    }
    levels.restart(propagator);
    if !begin(propagator, assumptions) {
        return Ok(false);
    }
    levels.push(propagator)?;
    Ok(true)
}

/// Decides until each variable of the order has a value or a clause is false, or a few times where that is enough.
pub(crate) fn descend(
    propagator: &mut Propagator,
    order: &Order,
    levels: &mut Levels,
    few: bool,
) -> Result<Descent, Memory>
    requires sound { IsSound propagator.old }
    requires settled { IsPropagated propagator.old }
    requires stage { IsStage propagator.old levels.old.base levels.old.marks.items }
    requires max { propagator.old.trail.greatest ≡ order.now.greatest }
    requires signed { order.now.greatest < 2 ^ 31 }
    ensures extends { ExtendsStanding propagator.old propagator.new }
    ensures stage { IsStage propagator.new levels.new.base levels.new.marks.items }
    ensures end { IfOk result (Descends order.now.vars few propagator.new) }
{
    let mut cursor = order.first();
    let mut decisions = 0u32;
    while let Some(lit) = order.choose(propagator, &mut cursor) {
        if few && decisions >= FEW {
            return Ok(Descent::GivenUp);
        }
        decisions = decisions.saturating_add(1);
        let level = propagator.trail().len();
        if let Some(clause) = decide(propagator, lit) {
            return Ok(Descent::Conflict(Conflict { clause, level }));
        }
        levels.push(propagator)?;
    }
    Ok(Descent::Bottom)
}

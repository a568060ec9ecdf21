// From a clause that is false to a lemma.
ghost use Rattle.std.specs.Prelude.{◌≡◌, ◌<◌, ◌^◌, IfOk};
ghost use Rattle.clause_core.specs.Clause.{IsClauseInRange};
ghost use Rattle.clause_core.specs.Log.{IsLemma};
ghost use Rattle.unit_prop.specs.Standing.{live_of};
ghost use Rattle.cdcl_solver.specs.Search.{IsConflictAt};

use crate::analysis::Analysis;
use crate::order::Order;
use crate::room::Room;
use clause_core::Clause;
use graph_core::Memory;
use std::alloc::Global;
use unit_prop::{Propagator, Ref};

/// A clause that is false, and what stood before the last decision.
#[derive(Clone, Copy, Debug)]
pub(crate) struct Conflict {
    pub clause: Ref,
    pub level: usize,
}

/// The lemma of the first literal of the last level through which all its reasons pass, without literals that follow
/// from its others. What was resolved moves to the front of the order. The room is memory that is used again, whatever
/// is in it.
pub(crate) fn learn(
    alloc: Global,
    propagator: &Propagator,
    max: u32,
    conflict: Conflict,
    order: &mut Order,
    room: &mut Room,
) -> Result<Clause, Memory>
    requires conflict { IsConflictAt propagator.now conflict.clause conflict.level }
    requires max { propagator.now.trail.greatest ≡ max }
    requires signed { max < 2 ^ 31 }
    requires order { order.old.greatest ≡ max }
    ensures order { order.new ≡ order.old }
    ensures lemma { IfOk result (λ lemma. IsLemma (live_of propagator.now.clauses) lemma) }
    ensures in_range { IfOk result (λ lemma. IsClauseInRange max lemma) }
{
    let analysis = Analysis::of(alloc, propagator, max, conflict, room)?;
    analysis.bump(propagator, order);
    let lits = analysis.into_lits(alloc, propagator, room)?;
    Clause::new(alloc, &lits)
}

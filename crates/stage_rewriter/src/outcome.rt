// All goals of a graph with an adder, one after the other.
ghost use Rattle.std.specs.Prelude.{◌≡◌, [], IfOk, IfSome, IsTrue};
ghost use Rattle.ripple_graft.specs.Blocks.{IsCut, with_cut};
ghost use Rattle.goal_refuter.specs.Refuting.{IsDiffering, IsGoalsOutcome};
ghost use Rattle.goal_refuter.specs.Refutations.{IsSpent};

use crate::goals::unmet_goals;
use crate::near::refute_near;
use crate::resting::stays_open;
use crate::seen::failing_goal;
use cdcl_solver::Log;
use goal_refuter::{Outcome, differ_at, refute_goals};
use graph_core::Memory;
use miter_encoder::gate_clauses;
use ripple_graft::{Cut, Extended};
use std::alloc::Global;

/// Refutes the negation of each goal that isn't met, within so many conflicts: over the clauses near the adder, so deep
/// below its pairs; where that doesn't come off, though conflicts are left, and what lies below the pairs counts as
/// near, over those of all that lies below them; and then over all. First the goals are held against a few inputs, so
/// that a wrong adder costs no conflict. Where no conflict is allowed, the first goal is looked at without a clause
/// being made.
pub(crate) fn refute_all(
    alloc: Global,
    extended: &Extended<'_>,
    cut: &Cut,
    depth: u32,
    conflicts: u64,
) -> Result<Outcome, Memory>
    requires cut { IsCut extended.now.graph cut.now }
    requires graph { extended.now ≡ with_cut extended.now.graph cut.now }
    ensures { IfOk result (IsGoalsOutcome extended.now conflicts) }
{
    if conflicts == 0 {
        if is_spent_at_once(alloc, extended, cut)? {
            return Ok(Outcome::Spent(0, Log::new(alloc)));
        }
    } else {
        if let Some(values) = seen_difference(alloc, extended, cut)? {
            return Ok(Outcome::Model(values));
        }
        let mut is_lost = false;
        if let Some(log) = refute_near(alloc, extended, cut, depth, conflicts, &mut is_lost)? {
            return Ok(Outcome::Refuted(log));
        }
        if depth > 0 && !is_lost {
            let all = extended.max();
            if let Some(log) = refute_near(alloc, extended, cut, all, conflicts, &mut is_lost)? {
                return Ok(Outcome::Refuted(log));
            }
        }
    }
    refute_over_all(alloc, extended, cut, conflicts)
}

// An evaluation at which some goal fails, if one of a few inputs is such.
fn seen_difference(
    alloc: Global,
    extended: &Extended<'_>,
    cut: &Cut,
) -> Result<Option<Vec<bool>>, Memory>
    requires cut { IsCut extended.now.graph cut.now }
    requires graph { extended.now ≡ with_cut extended.now.graph cut.now }
    ensures { IfOk result (λ found. IfSome found (λ values. IsDiffering extended.now values.items)) }
{
    let max = extended.max();
    let _gates = extended.gates();
    let goals = unmet_goals(alloc, extended, cut)?;
    let Some((place, inputs)) = failing_goal(alloc, extended, &goals)? else {
        return Ok(None);
    };
    let clauses = gate_clauses(alloc, extended)?;
    differ_at(alloc, max, &clauses, &goals, place, &inputs)
}

// Whether it is seen without a solver that the first goal doesn't follow by propagation.
fn is_spent_at_once(alloc: Global, extended: &Extended<'_>, cut: &Cut) -> Result<bool, Memory>
    requires cut { IsCut extended.now.graph cut.now }
    requires graph { extended.now ≡ with_cut extended.now.graph cut.now }
    ensures { IfOk result (λ spent. IsTrue spent → IsSpent extended.now 0 0 0 (record { lines = []; left = [] })) }
{
    let goals = unmet_goals(alloc, extended, cut)?;
    if goals.len() == 0 {
        return Ok(false);
    }
    stays_open(alloc, extended, goals.get(0))
}

// The same over all clauses.
fn refute_over_all(
    alloc: Global,
    extended: &Extended<'_>,
    cut: &Cut,
    conflicts: u64,
) -> Result<Outcome, Memory>
    requires cut { IsCut extended.now.graph cut.now }
    requires graph { extended.now ≡ with_cut extended.now.graph cut.now }
    ensures { IfOk result (IsGoalsOutcome extended.now conflicts) }
{
    let max = extended.max();
    let _gates = extended.gates();
    let clauses = gate_clauses(alloc, extended)?;
    let goals = unmet_goals(alloc, extended, cut)?;
    refute_goals(alloc, max, &clauses, &goals, conflicts)
}

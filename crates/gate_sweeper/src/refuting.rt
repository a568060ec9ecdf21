// The goals of gates that are swept first.
ghost use Rattle.std.specs.Prelude.{◌<◌, ◌^◌, IfOk};
ghost use Rattle.std.specs.List.{All};
ghost use Rattle.graph_core.specs.Graph.Extended.{Extended};
ghost use Rattle.clause_core.specs.Clause.{IsClauseInRange};
ghost use Rattle.goal_refuter.specs.Refuting.{AreOver, IsOutcomeOver};

use crate::sweeping::sweep;
use crate::swept::Swept;
use cdcl_solver::Log;
use clause_core::ClauseList;
use goal_refuter::{Outcome, refute_alike, solver_of};
use graph_core::Memory;
use std::alloc::Global;

/// Refutes the negation of each goal within so many conflicts, over the clauses of gates, after these are swept.
pub fn refute_swept(
    alloc: Global,
    swept: &Swept<'_>,
    clauses: &ClauseList,
    goals: &ClauseList,
    conflicts: u64,
) -> Result<Outcome, Memory>
    requires small { swept.now.max < 2 ^ 31 }
    requires clauses { All (IsClauseInRange swept.now.max) clauses.now }
    requires goals { All (IsClauseInRange swept.now.max) goals.now }
    requires over { (e : Extended) × AreOver e swept.now.max clauses.now goals.now }
    ensures { IfOk result (IsOutcomeOver swept.now.max clauses.now goals.now conflicts) }
{
    let mut solver = solver_of(alloc, swept.max, clauses)?;
    let mut log = Log::new(alloc);
    sweep(alloc, swept, conflicts, &mut solver, &mut log)?;
    refute_alike(alloc, goals, conflicts, &mut solver, log)
}

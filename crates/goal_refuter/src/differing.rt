// A goal that is thought to fail.
ghost use Rattle.std.specs.Prelude.{[], ◌<◌, ◌^◌, length, IfOk, IfSome};
ghost use Rattle.std.specs.List.{All};
ghost use Rattle.graph_core.specs.Graph.Extended.{Extended};
ghost use Rattle.clause_core.specs.Clause.{IsClauseInRange};
ghost use Rattle.goal_refuter.specs.Refuting.{AreOver, IsDifferingOver};

use crate::refutation::refute;
use crate::solver::solver_of;
use cdcl_solver::{Log, Solved};
use clause_core::ClauseList;
use graph_core::Memory;
use std::alloc::Global;

/// An evaluation at which the goal at a place doesn't hold, if a solver that tries these values first has one before it
/// meets a conflict.
pub fn differ_at(
    alloc: Global,
    max: u32,
    clauses: &ClauseList,
    goals: &ClauseList,
    place: usize,
    values: &[i32],
) -> Result<Option<Vec<bool>>, Memory>
    requires small { max < 2 ^ 31 }
    requires clauses { All (IsClauseInRange max) clauses.now }
    requires goals { All (IsClauseInRange max) goals.now }
    requires over { (e : Extended) × AreOver e max clauses.now goals.now }
    requires within { place < length goals.now }
    ensures { IfOk result (λ found. IfSome found (λ model. IsDifferingOver max clauses.now goals.now model.items)) }
{
    let mut solver = solver_of(alloc, max, clauses)?;
    solver.suggest(values);
    let mut log = Log::new(alloc);
    match refute(alloc, &mut solver, goals.get(place), 1, &mut log)? {
        Solved::Model(model) => Ok(Some(model)),
        _ => Ok(None),
    }
}

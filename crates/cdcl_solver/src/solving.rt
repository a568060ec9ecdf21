// One goal over given clauses.
ghost use Rattle.std.specs.Prelude.{◌≡◌, ◌<◌, ◌^◌, ◌++◌, IfOk, OnOk};
ghost use Rattle.std.specs.List.{All};
ghost use Rattle.clause_core.specs.Clause.{IsClauseInRange};
ghost use Rattle.cdcl_solver.specs.Loading.{IsSolverOver};
ghost use Rattle.cdcl_solver.specs.Logs.{LogView, Continues};
ghost use Rattle.cdcl_solver.specs.Solving.{IsAnswer};

use crate::log::Log;
use crate::solved::Solved;
use crate::solver::Solver;
use clause_core::ClauseList;
use graph_core::Memory;
use std::alloc::Global;

/// Refutes the assumptions over the clauses and the log, finds a model of all of them, or logs `conflicts` lemmas.
///
/// After an `Err` the log may have lemmas more, each lawful. Who has several goals over the same clauses keeps a
/// `Solver`, which loads them once.
pub fn solve(
    alloc: Global,
    max: u32,
    clauses: &ClauseList,
    assumptions: &[i32],
    conflicts: u64,
    log: &mut Log,
) -> Result<Solved, Memory>
    requires signed { max < 2 ^ 31 }
    requires clauses { All (IsClauseInRange max) clauses.now }
    requires log { All (IsClauseInRange max) log.old.left }
    requires assumptions { IsClauseInRange max assumptions.now }
    ensures log { Continues max clauses.now conflicts log.old log.new }
    ensures in_range { All (IsClauseInRange max) log.new.left }
    ensures answer { IfOk result (IsAnswer max clauses.now assumptions.now conflicts log.old log.new) }
{
    let mut solver = load(alloc, max, clauses, log)?;
    solver.solve(assumptions, conflicts, log)
}

// A solver over the clauses and those that the log left live.
fn load(alloc: Global, max: u32, clauses: &ClauseList, log: &Log) -> Result<Solver, Memory>
    requires signed { max < 2 ^ 31 }
    requires clauses { All (IsClauseInRange max) clauses.now }
    requires log { All (IsClauseInRange max) log.now.left }
    ensures { IfOk result (λ solver. IsSolverOver solver max (log.now.left ++ clauses.now)) }
{
    let mut solver = Solver::new(alloc, max)?;
    add_all(&mut solver, clauses)?;
    let left = log.left(alloc)?;
    add_all(&mut solver, &left)?;
    Ok(solver)
}

fn add_all(solver: &mut Solver, clauses: &ClauseList) -> Result<(), Memory>
    requires { All (IsClauseInRange solver.old.max) clauses.now }
    ensures { OnOk result (solver.new ≡ record { max = solver.old.max; live = solver.old.live ++ clauses.now }) }
{
    for i in 0..clauses.len() {
        solver.add(clauses.get(i))?;
    }
    Ok(())
}

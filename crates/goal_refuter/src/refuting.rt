// All goals, one after the other.
ghost use Rattle.std.specs.Prelude.{◌≡◌, ◌<◌, ◌^◌, ◌++◌, List, IfOk, OnOk};
ghost use Rattle.std.specs.List.{All};
ghost use Rattle.graph_core.specs.Graph.Extended.{Extended};
ghost use Rattle.clause_core.specs.Clause.{Clause as Literals, IsClauseInRange};
ghost use Rattle.cdcl_solver.specs.Deletions.{ChangeAlike};
ghost use Rattle.cdcl_solver.specs.Loading.{SameLive};
ghost use Rattle.goal_refuter.specs.Beginnings.{
  IsBegun,
  IsBegunAlike,
  IsBegunFor,
  IsOutcomeAlike,
  IsOutcomeBehind,
  IsOutcomeFor,
  KeepsCount,
};
ghost use Rattle.goal_refuter.specs.Refuting.{AreOver, IsOutcomeOver, IsRefutation};

use crate::refutation::refute;
use crate::solver::solver_of;
use cdcl_solver::{Log, Solved, Solver};
use clause_core::{Clause, ClauseList};
use graph_core::Memory;
use std::alloc::Global;

// How many conflicts there are between two looks for lemmas that may be deleted.
const SOME: u64 = 100;

/// What comes of refuting the negation of each goal.
#[derive(Debug, Drop)]
pub enum Outcome {
    /// Each is refuted, and the goals are among the lines.
    Refuted(Log),
    /// An evaluation at which a goal doesn't hold: the value of each variable from 1 on.
    Model(Vec<bool>),
    /// The conflicts are spent after so many goals, as the log has it.
    Spent(u64, Log),
}

/// Refutes the negation of each goal within so many conflicts, over the clauses of gates.
pub fn refute_goals(
    alloc: Global,
    max: u32,
    clauses: &ClauseList,
    goals: &ClauseList,
    conflicts: u64,
) -> Result<Outcome, Memory>
    requires small { max < 2 ^ 31 }
    requires clauses { All (IsClauseInRange max) clauses.now }
    requires goals { All (IsClauseInRange max) goals.now }
    requires over { (e : Extended) × AreOver e max clauses.now goals.now }
    ensures { IfOk result (IsOutcomeOver max clauses.now goals.now conflicts) }
{
    let mut solver = solver_of(alloc, max, clauses)?;
    refute_alike(alloc, goals, conflicts, &mut solver, Log::new(alloc))
}

/// The same after a log of lemmas, which count among the conflicts, by a solver over the clauses of the gates and what
/// the log left.
pub fn refute_behind(
    alloc: Global,
    goals: &ClauseList,
    conflicts: u64,
    solver: &mut Solver,
    begun: Log,
) -> Result<Outcome, Memory>
    requires goals { All (IsClauseInRange solver.old.max) goals.now }
    requires over { (e : Extended) × (given : List Literals) × AreOver e solver.old.max given goals.now
        × IsBegun solver.old.max given conflicts solver.old begun }
    ensures { IfOk result (IsOutcomeBehind solver.old begun goals.now conflicts) }
{
    refute_each(alloc, goals, conflicts, false, solver, begun)
}

/// The same, but lemmas may be deleted: so in the solver each clause has to be as often live as among those of the
/// gates and those that the log left.
pub fn refute_alike(
    alloc: Global,
    goals: &ClauseList,
    conflicts: u64,
    solver: &mut Solver,
    begun: Log,
) -> Result<Outcome, Memory>
    requires goals { All (IsClauseInRange solver.old.max) goals.now }
    requires over { (e : Extended) × (given : List Literals) × AreOver e solver.old.max given goals.now
        × IsBegunAlike solver.old.max given conflicts solver.old begun }
    ensures { IfOk result (IsOutcomeAlike solver.old begun goals.now conflicts) }
{
    refute_each(alloc, goals, conflicts, true, solver, begun)
}

// Each goal, one after the other. Lemmas are deleted only where that is asked for.
fn refute_each(
    alloc: Global,
    goals: &ClauseList,
    conflicts: u64,
    forgets: bool,
    solver: &mut Solver,
    begun: Log,
) -> Result<Outcome, Memory>
    requires goals { All (IsClauseInRange solver.old.max) goals.now }
    requires over { (e : Extended) × (given : List Literals) × AreOver e solver.old.max given goals.now
        × IsBegunFor forgets solver.old.max given conflicts solver.old begun }
    ensures { IfOk result (IsOutcomeFor forgets solver.old begun goals.now conflicts) }
{
    let mut log = begun;
    for goal in 0..goals.len() {
        // the goals so far are among the added clauses beside the lemmas
        let spent = log.added() - goal as u64;
        let left = conflicts - spent;
        match refute_one(alloc, solver, goals.get(goal), left, forgets, &mut log)? {
            Solved::Refuted => {}
            Solved::Model(values) => return Ok(Outcome::Model(values)),
            Solved::Spent => return Ok(Outcome::Spent(goal as u64, log)),
        }
    }
    Ok(Outcome::Refuted(log))
}

// One goal, by some conflicts at a time. Between them lemmas may be deleted.
fn refute_one(
    alloc: Global,
    solver: &mut Solver,
    goal: &Clause,
    conflicts: u64,
    forgets: bool,
    log: &mut Log,
) -> Result<Solved, Memory>
    requires goal { IsClauseInRange solver.old.max goal.now }
    requires log { All (IsClauseInRange solver.old.max) log.old.left }
    requires over { (given : List Literals) × SameLive solver.old.live (log.old.left ++ given)
        × KeepsCount forgets solver.old.live log.old.left given }
    ensures max { OnOk result (solver.new.max ≡ solver.old.max) }
    ensures left { OnOk result (All (IsClauseInRange solver.old.max) log.new.left) }
    ensures answer { (given : List Literals) → SameLive solver.old.live (log.old.left ++ given) →
        KeepsCount forgets solver.old.live log.old.left given →
        IfOk result (IsRefutation solver.old.max given goal.now conflicts log.old log.new) }
    ensures live { (given : List Literals) → SameLive solver.old.live (log.old.left ++ given) →
        KeepsCount forgets solver.old.live log.old.left given →
        OnOk result (SameLive solver.new.live (log.new.left ++ given)) }
    ensures alike { OnOk result (ChangeAlike solver.old.live log.old solver.new.live log.new) }
{
    let mut left = conflicts;
    while left > SOME {
        match refute(alloc, solver, goal, SOME, log)? {
            Solved::Spent => {}
            solved => return Ok(solved),
        }
        left -= SOME;
        if forgets {
            solver.forget(log)?;
        }
    }
    refute(alloc, solver, goal, left, log)
}

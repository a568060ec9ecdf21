// Lemmas that are deleted between goals.
ghost use Rattle.std.specs.Prelude.{ℕ, List};
ghost use Rattle.clause_core.specs.Clause.{Clause};
ghost use Rattle.goal_refuter.specs.Beginnings.{IsBegunAlike, StaysBegunAlike};

use cdcl_solver::{Log, Solver};
use graph_core::Memory;

/// Deletes lemmas from the log and from the solver, if there are many and a deletion may come.
pub fn forget(solver: &mut Solver, conflicts: u64, log: &mut Log) -> Result<(), Memory>
    requires { (max : ℕ) × (given : List Clause) × IsBegunAlike max given conflicts solver.old log.old }
    ensures { StaysBegunAlike conflicts solver.old log.old solver.new log.new }
{
    solver.forget(log)
}

// A solver over a list of clauses.
ghost use Rattle.std.specs.Prelude.{◌≡◌, ◌<◌, ◌^◌, IfOk};
ghost use Rattle.std.specs.List.{All};
ghost use Rattle.clause_core.specs.Clause.{IsClauseInRange};

use cdcl_solver::Solver;
use clause_core::ClauseList;
use graph_core::Memory;
use std::alloc::Global;

/// A solver over these clauses of variables up to the greatest one.
pub fn solver_of(alloc: Global, max: u32, clauses: &ClauseList) -> Result<Solver, Memory>
    requires small { max < 2 ^ 31 }
    requires in_range { All (IsClauseInRange max) clauses.now }
    ensures { IfOk result (λ solver. solver ≡ record { max = max; live = clauses.now }) }
{
    let mut solver = Solver::new(alloc, max)?;
    for i in 0..clauses.len() {
        solver.add(clauses.get(i))?;
    }
    Ok(solver)
}

// The refutation of one goal's negation.
ghost use Rattle.std.specs.Prelude.{List, ◌≡◌, ◌<◌, ◌^◌, [], ◌∷◌, ◌++◌, map, nat_abs, neg_ℤ, IfOk, OnOk};
ghost use Rattle.std.specs.List.{All, Contains};
ghost use Rattle.clause_core.specs.Clause.{Clause as Literals, IsClauseInRange};
ghost use Rattle.cdcl_solver.specs.Deletions.{ChangeAlike};
ghost use Rattle.cdcl_solver.specs.Loading.{SameLive};
ghost use Rattle.goal_refuter.specs.Refuting.{IsRefutation};

use cdcl_solver::{Log, Solved, Solver};
use clause_core::Clause;
use graph_core::Memory;
use std::alloc::Global;

/// Refutes the negation of a goal within so many conflicts; the goal then goes to the log, and is live in the solver.
pub fn refute(
    alloc: Global,
    solver: &mut Solver,
    goal: &Clause,
    conflicts: u64,
    log: &mut Log,
) -> Result<Solved, Memory>
    requires goal { IsClauseInRange solver.old.max goal.now }
    requires log { All (IsClauseInRange solver.old.max) log.old.left }
    requires known { (c : Literals) → Contains log.old.left c → Contains solver.old.live c }
    ensures max { OnOk result (solver.new.max ≡ solver.old.max) }
    ensures left { OnOk result (All (IsClauseInRange solver.old.max) log.new.left) }
    ensures answer { (given : List Literals) → SameLive solver.old.live (log.old.left ++ given) →
        IfOk result (IsRefutation solver.old.max given goal.now conflicts log.old log.new) }
    ensures live { (given : List Literals) → SameLive solver.old.live (log.old.left ++ given) →
        OnOk result (SameLive solver.new.live (log.new.left ++ given)) }
    ensures alike { OnOk result (ChangeAlike solver.old.live log.old solver.new.live log.new) }
{
    let negated = negations(alloc, goal)?;
    let solved = solver.solve(&negated, conflicts, log)?;
    if let Solved::Refuted = solved {
        solver.add(goal)?;
        log.push(goal.copy(alloc)?)?;
    }
    Ok(solved)
}

// The negations of a clause's literals.
fn negations(alloc: Global, clause: &Clause) -> Result<Vec<i32>, Memory>
    ensures { IfOk result (λ lits. lits.items ≡ map neg_ℤ clause.now) }
{
    let mut lits = Vec::new(alloc);
    for &lit in clause.lits() {
        push_negation(&mut lits, lit)?;
    }
    Ok(lits)
}

fn push_negation(lits: &mut Vec<i32>, lit: i32) -> Result<(), Memory>
    requires { nat_abs lit < 2 ^ 31 }
    ensures { OnOk result (lits.new.items ≡ lits.old.items ++ neg_ℤ lit ∷ []) }
{
    match lits.push(-lit) {
        Ok(()) => Ok(()),
        Err(_) => Err(Memory),
    }
}

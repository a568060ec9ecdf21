// Equal literals.
ghost use Rattle.std.specs.Prelude.{◌≡◌, ℕ, List, [], ◌∷◌, IfOk, IsTrue, OnOk};
ghost use Rattle.std.specs.List.{Contains};
ghost use Rattle.clause_core.specs.Clause.{Clause};
ghost use Rattle.clause_core.specs.GateClauses.{signed_of};
ghost use Rattle.clause_core.specs.UnitPropagation.{IsRup};
ghost use Rattle.cdcl_solver.specs.Deletions.{ChangeAlike};
ghost use Rattle.goal_refuter.specs.Beginnings.{AreShownEqual, IsBegun, StaysBegun};

use cdcl_solver::{Log, Solver};
use graph_core::{Lit, Memory};
use miter_encoder::signed;

/// Shows that two literals are equal by their two implications, each within so many lemmas, and with those that the log
/// has within the conflicts; whether both were shown. False of constants.
pub fn show_equal(
    solver: &mut Solver,
    one: Lit,
    other: Lit,
    few: u64,
    conflicts: u64,
    log: &mut Log,
) -> Result<bool, Memory>
    requires { (max : ℕ) × (given : List Clause) × IsBegun max given conflicts solver.old log.old }
    ensures begun { OnOk result (StaysBegun conflicts solver.old log.old solver.new log.new) }
    ensures alike { OnOk result (ChangeAlike solver.old.live log.old solver.new.live log.new) }
    ensures shown { IfOk result (λ both. IsTrue both → AreShownEqual solver.new.live one other) }
{
    if !show(solver, one.not(), other, few, conflicts, log)? {
        return Ok(false);
    }
    show(solver, one, other.not(), few, conflicts, log)
}

// Shows that one of two literals is true.
fn show(
    solver: &mut Solver,
    one: Lit,
    other: Lit,
    few: u64,
    conflicts: u64,
    log: &mut Log,
) -> Result<bool, Memory>
    requires { (max : ℕ) × (given : List Clause) × IsBegun max given conflicts solver.old log.old }
    ensures begun { OnOk result (StaysBegun conflicts solver.old log.old solver.new log.new) }
    ensures alike { OnOk result (ChangeAlike solver.old.live log.old solver.new.live log.new) }
    ensures live { OnOk result ((c : Clause) → Contains solver.old.live c → Contains solver.new.live c) }
    ensures shown { IfOk result (λ shown. IsTrue shown
        → IsRup solver.new.live (signed_of one ∷ signed_of other ∷ [])) }
{
    if one.var() == 0 || other.var() == 0 {
        return Ok(false);
    }
    let first = signed(one);
    let second = signed(other);
    let left = conflicts - log.added();
    let shown = solver.show(first, second, few.min(left), log)?;
    Ok(shown)
}

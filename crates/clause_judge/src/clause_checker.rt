// The checker of a clause file: one line, and the goals.
ghost use Rattle.std.specs.Prelude.{◌≡◌, None, IfErr, OnErr, OnOk};
ghost use Rattle.clause_core.specs.Clause.{IsClauseInRange};
ghost use Rattle.clause_core.specs.ClauseLines.{clause_in};
ghost use Rattle.drup_checker.specs.Checking.{IsLeastUnshown};
ghost use Rattle.clause_judge.specs.ClauseLines.{IsGoalFail, IsRuleFail, TakesClauseLine};

use crate::clause_line::refused;
use crate::fail::{ClauseFail, ClauseWhy};
use clause_core::Line;
use command_core::Stop;
use drup_checker::{AddFail, Checker, NoSuchClause};

/// The checker takes a line, which has this number.
pub(crate) fn take_line(
    checker: &mut Checker<'_>,
    line: &Line,
    number: u64,
) -> Result<(), ClauseFail>
    requires { IsClauseInRange checker.old.max (clause_in line.now) }
    ensures taken { OnOk result (TakesClauseLine line.now checker.old checker.new) }
    ensures refused { IfErr result (IsRuleFail number line.now checker.old) }
    ensures unchanged { OnErr result (checker.new ≡ checker.old) }
{
    match line {
        Line::Add(clause) => match checker.add(clause) {
            Ok(()) => Ok(()),
            Err(AddFail::NotImplied) => Err(refused(number, ClauseWhy::NotImplied)),
            Err(AddFail::Memory) => Err(ClauseFail::Stopped(Stop::Memory)),
        },
        Line::Delete(clause) => match checker.delete(clause) {
            Ok(()) => Ok(()),
            Err(NoSuchClause) => Err(refused(number, ClauseWhy::NoSuchClause)),
        },
    }
}

/// Every goal is shown by the lines that were taken.
pub(crate) fn judge_goals(checker: &Checker<'_>) -> Result<(), ClauseFail>
    ensures shown { OnOk result (IsLeastUnshown checker.now.goals checker.now.shown None) }
    ensures refused { IfErr result (IsGoalFail checker.now) }
{
    match checker.unshown() {
        None => Ok(()),
        Some(column) => Err(ClauseFail::Goals { column }),
    }
}

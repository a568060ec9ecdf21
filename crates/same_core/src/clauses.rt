// The clause certificate of merged gates.
ghost use Rattle.std.specs.Prelude.{◌≡◌, ◌+◌, ◌<◌, ◌^◌, true, IfErr, IfSome, OnOk};
ghost use Rattle.clause_judge.specs.ClauseBody.{IsRestFail, IsShownBody};
ghost use Rattle.mv_text.specs.CertificateFiles.{GoesOn, left_of_file};
ghost use Rattle.graph_core.specs.Graph.Extended.{AgreeOnColumns};
ghost use Rattle.mv_desk.specs.Calls.{Inspects, ReadsOnly};
ghost use Rattle.mv_desk.specs.View.{KeepsTelling, OpensFiles, bytes_under};
ghost use Rattle.mv_desk.specs.declared.slot.Slot.TheVariants as slot;
ghost use Rattle.mv_fact.specs.Always.{Always};
ghost use Rattle.mv_text.specs.LineReading.{lengths_of};
ghost use Rattle.same_core.specs.Certificates.{IsLawful};
ghost use Rattle.same_core.specs.Fails.{IsPairClauseFail};
ghost use Rattle.same_core.specs.Merged.{over};
ghost use Rattle.same_core.specs.Places.{IsMerged};

use crate::merged::Merged;
use clause_judge::{ClauseFail, judge, line_refused};
use command_core::Stop;
use drup_checker::Keeps;
use drup_text::ClauseFile;
use miter_encoder::goals_of;
use mv_desk::{Desk, Limits, Slot};
use std::alloc::Global;

// Whether a file is lawful over merged gates. Then on each of their evaluations the outputs of each pair are equal.
pub(crate) fn check_clauses<D: Desk>(
    alloc: Global,
    desk: &mut D,
    limits: &Limits,
    name: &str,
    merged: &Merged,
) -> Result<(), ClauseFail>
    requires { IsMerged merged.now }
    ensures lawful { OnOk result (IfSome (bytes_under (D.seen desk.old) name.now)
        (IsLawful (lengths_of limits.now) (over merged.now))) }
    ensures agree { OnOk result (Always merged.now.gates (AgreeOnColumns (over merged.now))) }
    ensures refused { IfErr result (IsPairClauseFail (lengths_of limits.now) (over merged.now)
        (bytes_under (D.seen desk.old) name.now) (D.seen desk.old) (D.seen desk.new)) }
    ensures opened { OpensFiles 1 (D.seen desk.old) (D.seen desk.new) }
    ensures inspects { Inspects (D.seen desk.old) (D.seen desk.new) }
    ensures tells { KeepsTelling (D.seen desk.old) (D.seen desk.new) }
{
    match desk.open_file(Slot::Clauses, name) {
        Ok(()) => judge_clauses(alloc, desk, limits, merged),
        Err(_) => Err(ClauseFail::Stopped(Stop::ReadFault)),
    }
}

// Whether what is left in the slot `Clauses` is.
fn judge_clauses<D: Desk>(
    alloc: Global,
    desk: &mut D,
    limits: &Limits,
    merged: &Merged,
) -> Result<(), ClauseFail>
    requires reads { (D.seen desk.old).reads slot.Clauses ≡ true }
    requires merged { IsMerged merged.now }
    ensures lawful { OnOk result (IfSome ((D.seen desk.old).left slot.Clauses)
        (IsLawful (lengths_of limits.now) (over merged.now))) }
    ensures agree { OnOk result (Always merged.now.gates (AgreeOnColumns (over merged.now))) }
    ensures refused { IfErr result (IsPairClauseFail (lengths_of limits.now) (over merged.now)
        ((D.seen desk.old).left slot.Clauses) (D.seen desk.old) (D.seen desk.new)) }
    ensures only { ReadsOnly slot.Clauses (D.seen desk.old) (D.seen desk.new) }
    ensures tells { KeepsTelling (D.seen desk.old) (D.seen desk.new) }
{
    let mut file = match ClauseFile::start_same(alloc, desk, limits) {
        Ok(file) => file,
        Err(fail) => return Err(line_refused(fail.line, fail.why)),
    };
    judge_lines(alloc, desk, &mut file, merged)
}

// The lines after the first one, up to the end of the file, and then the goals.
fn judge_lines<D: Desk>(
    alloc: Global,
    desk: &mut D,
    file: &mut ClauseFile,
    merged: &Merged,
) -> Result<(), ClauseFail>
    requires reads { (D.seen desk.old).reads slot.Clauses ≡ true }
    requires going { GoesOn file.old }
    requires limit { file.old.lines.lengths.file < 2 ^ 64 }
    requires merged { IsMerged merged.now }
    ensures lawful { OnOk result (IfSome (left_of_file slot.Clauses file.old (D.seen desk.old))
        (IsShownBody (over merged.now) file.old.lines)) }
    ensures agree { OnOk result (Always merged.now.gates (AgreeOnColumns (over merged.now))) }
    ensures refused { IfErr result (IsRestFail (file.old.number + 1) (over merged.now) file.old.lines
        (left_of_file slot.Clauses file.old (D.seen desk.old)) (D.seen desk.old) (D.seen desk.new)) }
    ensures only { ReadsOnly slot.Clauses (D.seen desk.old) (D.seen desk.new) }
    ensures tells { KeepsTelling (D.seen desk.old) (D.seen desk.new) }
{
    let goals = goals_of(alloc, merged.pairs())?;
    let max = merged.max();
    let gates = merged.gates();
    judge(alloc, desk, file, max, gates, &goals, Keeps::Nothing)?;
    Ok(())
}

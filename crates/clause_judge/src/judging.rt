// The lines of a clause file after its header and then the goals, by a checker.
ghost use Rattle.std.specs.List.{All};
ghost use Rattle.std.specs.Prelude.{◌≡◌, ◌+◌, ◌<◌, ◌^◌, [], true, None, IfErr, IfOk, IfSome, IsTrue, OnOk};
ghost use Rattle.clause_core.specs.Facts.{IsClauseFact};
ghost use Rattle.clause_core.specs.GateClauses.{AreGatesWithin, gate_clauses};
ghost use Rattle.clause_core.specs.KeptClauses.{AreEarlier, HaveTightChains};
ghost use Rattle.graph_core.specs.Graph.Extended.{AgreeOnColumns, Extended};
ghost use Rattle.mv_desk.specs.Calls.{ReadsOnly};
ghost use Rattle.mv_desk.specs.View.{KeepsTelling};
ghost use Rattle.mv_desk.specs.declared.slot.Slot.TheVariants as slot;
ghost use Rattle.mv_fact.specs.Always.{Always};
ghost use Rattle.mv_text.specs.CertificateFiles.{GoesOn, left_of_file};
ghost use Rattle.clause_judge.specs.ClauseBody.{BeginsSomewhere, IsFailFrom, IsOver, IsRestFail, IsShownFrom, IsShownWith, JoinsFrom, ShowsFrom};
ghost use Rattle.clause_judge.specs.Taking.{IsShownOver};

use crate::clause_checker::{judge_goals, take_line};
use crate::clause_line::read_line;
use crate::fail::ClauseFail;
use clause_core::{ClauseList, Line};
use command_core::Stop;
use drup_checker::{Checker, Keeps, Record};
use drup_text::ClauseFile;
use graph_core::Gate;
use miter_encoder::Goals;
use mv_desk::{Desk, Slot};
use mv_text::{JudgeLines, judge_lines};
use std::alloc::Global;

/// Judges the lines after the header of a file over gates, up to the end of the file, and then the goals. The answer is
/// what is kept of the added clauses, and how many lines there are. The gates' clauses are only made where there is a
/// line or a goal.
pub fn judge<D: Desk>(
    alloc: Global,
    desk: &mut D,
    file: &mut ClauseFile,
    max: u32,
    gates: &[Gate],
    goals: &Goals,
    keeps: Keeps,
) -> Result<(Record, u64), ClauseFail>
    requires reads { (D.seen desk.old).reads slot.Clauses ≡ true }
    requires going { GoesOn file.old }
    requires limit { file.old.lines.lengths.file < 2 ^ 64 }
    requires small { max < 2 ^ 31 }
    requires within { AreGatesWithin max gates.now }
    requires over { (e : Extended) × IsOver max gates.now goals.now e }
    ensures lawful { IfOk result (λ r. (e : Extended) → IsOver max gates.now goals.now e →
        IfSome (left_of_file slot.Clauses file.old (D.seen desk.old)) (IsShownWith e file.old.lines keeps r.0.added r.1)) }
    ensures shown { IfOk result (λ r. (e : Extended) → IsOver max gates.now goals.now e →
        IsShownOver e keeps r.0.added) }
    ensures columns { OnOk result ((e : Extended) → IsOver max gates.now goals.now e →
        Always e.gates (AgreeOnColumns e)) }
    ensures facts { IfOk result (λ r. All (IsClauseFact gates.now) r.0.added) }
    ensures chains { keeps ≡ Keeps.Chains → IfOk result (λ r.
        HaveTightChains (gate_clauses gates.now) [] r.0.added r.0.uses.items) }
    ensures earlier { IfOk result (λ r. AreEarlier r.0.uses.items) }
    ensures refused { IfErr result (λ answer. (e : Extended) → IsOver max gates.now goals.now e →
        IsRestFail (file.old.number + 1) e file.old.lines (left_of_file slot.Clauses file.old (D.seen desk.old))
        (D.seen desk.old) (D.seen desk.new) answer) }
    ensures only { ReadsOnly slot.Clauses (D.seen desk.old) (D.seen desk.new) }
    ensures tells { KeepsTelling (D.seen desk.old) (D.seen desk.new) }
{
    let first = read_line(desk, file, max)?;
    if is_nothing(&first, goals) {
        return Ok((nothing_kept(alloc), 0));
    }
    let mut checker = Checker::new(alloc, max, gates, goals, keeps)?;
    let lines = judge_from(desk, file, max, &mut checker, first)?;
    Ok((checker.into_record(), lines))
}

// There is no line, and no goal to be shown.
fn is_nothing(next: &Option<Line>, goals: &Goals) -> bool
    ensures { IsTrue result → (next.now ≡ None) × (goals.now ≡ []) }
{
    next.is_none() && goals.as_slice().is_empty()
}

fn nothing_kept(alloc: Global) -> Record
    ensures added { result.added ≡ [] }
    ensures uses { result.uses.items ≡ [] }
{
    Record {
        added: ClauseList::new(alloc),
        uses: Vec::new(alloc),
    }
}

// Judges a line that was read and those after it, up to the end of the file, and then the goals, by a checker that has
// taken no line; the answer is how many lines these are. The greatest variable is the checker's.
fn judge_from<D: Desk>(
    desk: &mut D,
    file: &mut ClauseFile,
    max: u32,
    checker: &mut Checker<'_>,
    first: Option<Line>,
) -> Result<u64, ClauseFail>
    requires reads { (D.seen desk.old).reads slot.Clauses ≡ true }
    requires small { max < 2 ^ 31 }
    requires greatest { checker.old.max ≡ max }
    requires begins { BeginsSomewhere checker.old first file.old (left_of_file slot.Clauses file.old (D.seen desk.old)) }
    ensures lawful { IfOk result (λ count. IsShownFrom checker.old checker.new.added count first file.old
        (left_of_file slot.Clauses file.old (D.seen desk.old))) }
    ensures shown { OnOk result (ShowsFrom checker.old checker.new.added first file.old
        (left_of_file slot.Clauses file.old (D.seen desk.old))) }
    ensures gates { checker.new.gates ≡ checker.old.gates }
    ensures keeps { checker.new.keeps ≡ checker.old.keeps }
    ensures columns { OnOk result (JoinsFrom checker.old first file.old
        (left_of_file slot.Clauses file.old (D.seen desk.old))) }
    ensures refused { IfErr result (IsFailFrom checker.old first file.old
        (left_of_file slot.Clauses file.old (D.seen desk.old)) (D.seen desk.old) (D.seen desk.new)) }
    ensures only { ReadsOnly slot.Clauses (D.seen desk.old) (D.seen desk.new) }
    ensures tells { KeepsTelling (D.seen desk.old) (D.seen desk.new) }
{
    let mut next = first;
    let mut judge = JudgeClauses {
        checker,
        file,
        max,
        next: &mut next,
    };
    judge_lines(desk, &mut judge)
}

// The lines by a checker: the next one is at hand, or none at the end of the file.
#[derive(Drop)]
struct JudgeClauses<'a, 'g> {
    checker: &'a mut Checker<'g>,
    file: &'a mut ClauseFile,
    max: u32,
    next: &'a mut Option<Line>,
}

impl<'a, 'g, D: Desk> JudgeLines<D> for JudgeClauses<'a, 'g> {
    ghost use Rattle.mv_desk.specs.declared.slot.Slot.TheVariants.{Clauses};
    ghost use Rattle.clause_judge.specs.ClauseBody.{AreClausesJudged, HasJudgedClauses};

    type End = u64;

    type Fail = ClauseFail;

    ghost slot = { Clauses };

    ghost reached = { HasJudgedClauses };

    ghost judged = { AreClausesJudged };

    fn judge_line(&mut self, desk: &mut D, count: u64) -> Result<Option<u64>, ClauseFail> {
        match self.next.take() {
            Some(line) => take_line(self.checker, &line, self.file.line_no())?,
            None => {
                judge_goals(self.checker)?;
                return Ok(Some(count));
            }
        }
        let next = read_line(desk, self.file, self.max)?;
        *self.next = next;
        Ok(None)
    }

    fn too_many(&self, _desk: &D) -> ClauseFail {
        ClauseFail::Stopped(Stop::TooLong(Slot::Clauses))
    }
}

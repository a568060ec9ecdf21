// The lines of an algebra file after its header, by a checker.
ghost use Rattle.std.specs.Prelude.{◌≡◌, true, IfErr, IfOk, IfSome, OnOk};
ghost use Rattle.mv_desk.specs.Calls.{ReadsOnly};
ghost use Rattle.mv_desk.specs.View.{KeepsTelling};
ghost use Rattle.mv_desk.specs.declared.slot.Slot.TheVariants as slot;
ghost use Rattle.mv_text.specs.CertificateFiles.{left_of_file};
ghost use Rattle.pac_checker.specs.Checking.{checker_premises};
ghost use Rattle.poly_text.specs.Recorded.{lines_in};
ghost use Rattle.algebra_judge.specs.AlgebraBody.{HasBegun, IsBodyFail, IsLawfulBody};
ghost use Rattle.algebra_judge.specs.AlgebraLines.{Vanishes, task_of};
ghost use Rattle.algebra_judge.specs.Records.{IsLawfulRecord, IsRecordedBody};

use crate::algebra_line::{Turn, judge_end, judge_line};
use crate::fail::AlgebraFail;
use crate::read_line::ReadLine;
use command_core::Stop;
use mv_desk::{Desk, Slot};
use mv_text::{JudgeLines, judge_lines};
use pac_checker::{PacChecker, Record};
use poly_text::AlgebraFile;
use std::marker::PhantomData;

/// What is recorded of an algebra certificate that is lawful.
#[derive(Drop)]
pub struct Closed {
    /// the lines that introduce ids, where lines are recorded, and the table of their polynomials
    pub record: Record,
    /// the id that the closing line names
    pub id: u64,
    /// how many lines stand before the closing one
    pub lines: u64,
}

// The closing line: the id that it names, and how many lines stand before it.
#[derive(Clone, Copy)]
struct Closing {
    id: u64,
    lines: u64,
}

/// Judges the lines after the header of a file, up to the closing line and the end of the file, by a checker that has
/// taken no line. The greatest variable is that of the checker's graph.
pub fn judge<D: Desk>(
    desk: &mut D,
    file: AlgebraFile,
    checker: PacChecker<'_>,
    max: u32,
) -> Result<Closed, AlgebraFail>
    requires reads { (D.seen desk.old).reads slot.Algebra ≡ true }
    requires begins { HasBegun checker file }
    requires greatest { max ≡ checker.extended.max }
    ensures lawful { OnOk result (IfSome (left_of_file slot.Algebra file (D.seen desk.old))
        (IsLawfulBody (task_of file.version checker.entry) file.lines)) }
    ensures vanishes { OnOk result (Vanishes (task_of file.version checker.entry)) }
    ensures recorded { checker.entry.records ≡ true → IfOk result
        (IsLawfulRecord (checker_premises file.version checker.entry) checker.entry.sides) }
    ensures told { IfOk result (λ c. IfSome (left_of_file slot.Algebra file (D.seen desk.old))
        (IsRecordedBody (task_of file.version checker.entry)
        (lines_in c.record.terms c.record.lines.items) c.id c.lines)) }
    ensures refused { IfErr result (IsBodyFail (task_of file.version checker.entry) file.lines
        (left_of_file slot.Algebra file (D.seen desk.old)) (D.seen desk.old) (D.seen desk.new)) }
    ensures only { ReadsOnly slot.Algebra (D.seen desk.old) (D.seen desk.new) }
    ensures tells { KeepsTelling (D.seen desk.old) (D.seen desk.new) }
{
    let mut judge = JudgeAlgebra {
        checker,
        work: ReadLine {
            file,
            max,
            desk: PhantomData,
        },
    };
    let closing = judge_lines(desk, &mut judge)?;
    Ok(Closed {
        record: judge.checker.into_record(),
        id: closing.id,
        lines: closing.lines,
    })
}

// The lines after the header by a checker, as a work reads them, up to the end of the file.
#[derive(Drop)]
struct JudgeAlgebra<'a, D> {
    checker: PacChecker<'a>,
    work: ReadLine<D>,
}

impl<'a, D: Desk> JudgeLines<D> for JudgeAlgebra<'a, D> {
    ghost use Rattle.std.specs.Prelude.{◌≡◌};
    ghost use Rattle.mv_desk.specs.declared.slot.Slot.TheVariants.{Algebra};
    ghost use Rattle.algebra_judge.specs.AlgebraBody.{HasJudgedAlgebra, IsAlgebraJudged};

    type End = Closing;

    type Fail = AlgebraFail;

    ghost slot = { Algebra };

    ghost reached = { λ start first count it now.
        HasJudgedAlgebra start.checker start.work.file first count it.checker it.work.file now ×
        (it.work.max ≡ it.checker.extended.max) };

    ghost judged = { λ start first answer it now.
        IsAlgebraJudged start.checker start.work.file first answer it.checker now };

    fn judge_line(&mut self, desk: &mut D, count: u64) -> Result<Option<Closing>, AlgebraFail> {
        match judge_line(desk, &mut self.checker, &mut self.work, 2 + count)? {
            Turn::Taken => {
                self.checker.compact()?;
                Ok(None)
            }
            Turn::Closed { id } => {
                judge_end(desk, &mut self.work.file, 3 + count)?;
                Ok(Some(Closing { id, lines: count }))
            }
        }
    }

    fn too_many(&self, _desk: &D) -> AlgebraFail {
        AlgebraFail::Stopped(Stop::TooLong(Slot::Algebra))
    }
}

// One line of a clause file, read from a desk.
ghost use Rattle.std.specs.Prelude.{◌≡◌, ◌+◌, ◌<◌, ◌^◌, true, IfErr, IfOk};
ghost use Rattle.mv_desk.specs.Calls.{ReadsOnly};
ghost use Rattle.mv_desk.specs.View.{KeepsTelling};
ghost use Rattle.mv_desk.specs.declared.slot.Slot.TheVariants as slot;
ghost use Rattle.mv_text.specs.CertificateFiles.{GoesOn, left_of_file};
ghost use Rattle.clause_judge.specs.ClauseLines.{IsTextFail, ReadsNext, answer_of_line};

use crate::fail::{ClauseFail, ClauseWhy};
use clause_core::Line;
use command_core::Stop;
use drup_text::ClauseFile;
use mv_desk::{Desk, Slot};
use mv_text::LineFail;

/// The next line, or none at the end of the file.
pub(crate) fn read_line<D: Desk>(
    desk: &mut D,
    file: &mut ClauseFile,
    max: u32,
) -> Result<Option<Line>, ClauseFail>
    requires reads { (D.seen desk.old).reads slot.Clauses ≡ true }
    requires going { GoesOn file.old }
    requires small { max < 2 ^ 31 }
    ensures next { IfOk result (ReadsNext max file.old file.new
        (left_of_file slot.Clauses file.old (D.seen desk.old)) (left_of_file slot.Clauses file.new (D.seen desk.new))) }
    ensures refused { IfErr result (IsTextFail (file.old.number + 1) max file.old.lines
        (left_of_file slot.Clauses file.old (D.seen desk.old)) (D.seen desk.old) (D.seen desk.new)) }
    ensures lengths { file.new.lines.lengths ≡ file.old.lines.lengths }
    ensures only { ReadsOnly slot.Clauses (D.seen desk.old) (D.seen desk.new) }
    ensures tells { KeepsTelling (D.seen desk.old) (D.seen desk.new) }
{
    match file.next(desk, max) {
        Ok(next) => Ok(next),
        Err(why) => Err(line_refused(file.line_no(), why)),
    }
}

/// What is answered of a line that isn't read.
pub fn line_refused(line: u64, why: LineFail) -> ClauseFail
    ensures { result ≡ answer_of_line line why }
{
    match why {
        LineFail::Text => refused(line, ClauseWhy::Text),
        LineFail::Range => refused(line, ClauseWhy::Range),
        LineFail::Fault => ClauseFail::Stopped(Stop::ReadFault),
        LineFail::TooLong => ClauseFail::Stopped(Stop::TooLong(Slot::Clauses)),
        LineFail::Memory => ClauseFail::Stopped(Stop::Memory),
    }
}

/// A line is refused.
pub(crate) fn refused(line: u64, why: ClauseWhy) -> ClauseFail
    ensures { result ≡ ClauseFail.Line line why }
{
    ClauseFail::Line { line, why }
}

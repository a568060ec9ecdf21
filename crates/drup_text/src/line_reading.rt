// Whole lines, as they are read.
ghost use Rattle.std.specs.Prelude.{◌≡◌, ◌<◌, ◌^◌, None, IfOk, IfErr};
ghost use Rattle.mv_text.specs.Steps.{IsMisfit};
ghost use Rattle.drup_text.specs.ClauseReading.{clause_line_at};
ghost use Rattle.drup_text.specs.ClauseTexts.{IsClauseLine};
ghost use Rattle.mv_text.specs.CertificateFiles.{SaysNothing};
ghost use Rattle.drup_text.specs.LineTexts.{IsClauseLineInRange, IsClauseTextOf};
ghost use Rattle.drup_text.specs.Steps.{ReadsClauseLine};

use crate::clause_reading::clause;
use clause_core::Line;
use mv_text::{LineFail, Scanner};
use std::alloc::Global;

// The line that a text says, without its line feed.
//
// `Text` comes exactly where no line has this text, and `Range` exactly where one has, but with a variable above `max`.
pub(crate) fn read_line(alloc: Global, bytes: &[u8], max: u32) -> Result<Line, LineFail>
    requires { max < 2 ^ 31 }
    ensures ok { IfOk result (IsClauseTextOf max bytes.now) }
    ensures err { IfErr result (SaysNothing IsClauseLine (IsClauseLineInRange max) bytes.now) }
{
    let mut scanner = Scanner::new(bytes);
    let line = any_line(alloc, &mut scanner, max)?;
    scanner.all(line)
}

// A line that deletes a clause, or one that adds one.
fn any_line(alloc: Global, scanner: &mut Scanner<'_>, max: u32) -> Result<Option<Line>, LineFail>
    requires { max < 2 ^ 31 }
    ensures ok { IfOk result (ReadsClauseLine clause_line_at max scanner.old scanner.new) }
    ensures err { IfErr result (IsMisfit (clause_line_at scanner.old ≡ None)) }
{
    if scanner.is_at(b'd') {
        scanner.text(b"d ")?;
        match clause(alloc, scanner, max)? {
            Some(clause) => Ok(Some(Line::Delete(clause))),
            None => Ok(None),
        }
    } else {
        match clause(alloc, scanner, max)? {
            Some(clause) => Ok(Some(Line::Add(clause))),
            None => Ok(None),
        }
    }
}

// The text of a whole certificate, written to a slot.
ghost use Rattle.std.specs.Prelude.{◌≡◌, true, All, IsSome};
ghost use Rattle.mv_desk.specs.Calls.{Writes};
ghost use Rattle.mv_desk.specs.declared.slot.Slot.TheVariants.{Algebra};
ghost use Rattle.algebra_core.specs.Text.{IsId};
ghost use Rattle.poly_terms.specs.Tables.{modulus_in};
ghost use Rattle.poly_text.specs.Lines.{AreOf, line_in};
ghost use Rattle.poly_text.specs.Recorded.{lines_in};
ghost use Rattle.poly_text.specs.WrittenLines.{IsWritable, written_certificate, written_lines};

use mv_desk::{Desk, WriteFault};
use poly_terms::Terms;
use poly_text::{PacLine, write_header, write_line};

/// Appends a whole certificate of a version to the slot `Algebra`: the header, lines of a table, none of which is a
/// closing line, and a closing line. It takes no memory. After an error a front part of it was written.
pub fn write_certificate<D: Desk>(
    desk: &mut D,
    version: u8,
    terms: &Terms,
    lines: &[PacLine],
    closing: u64,
) -> Result<(), WriteFault>
    requires open { (D.seen desk.old).writes Algebra ≡ true }
    requires go_on { All (λ line. IsSome (line_in terms.now line)) lines.now }
    requires of { All (AreOf terms.now) lines.now }
    requires writable { All IsWritable lines.now }
    requires closing { IsId closing }
    ensures { Writes Algebra
        (written_certificate version (modulus_in terms.now) (lines_in terms.now lines.now) closing)
        (D.seen desk.old) (D.seen desk.new) result }
{
    write_header(desk, version)?;
    write_lines(desk, terms, lines)?;
    write_line(desk, terms, &PacLine::Close { id: closing })
}

// Appends the lines.
fn write_lines<D: Desk>(desk: &mut D, terms: &Terms, lines: &[PacLine]) -> Result<(), WriteFault>
    requires open { (D.seen desk.old).writes Algebra ≡ true }
    requires go_on { All (λ line. IsSome (line_in terms.now line)) lines.now }
    requires of { All (AreOf terms.now) lines.now }
    requires writable { All IsWritable lines.now }
    ensures open { (D.seen desk.new).writes Algebra ≡ true }
    ensures writes { Writes Algebra (written_lines (modulus_in terms.now) (lines_in terms.now lines.now))
        (D.seen desk.old) (D.seen desk.new) result }
{
    for line in lines {
        write_line(desk, terms, line)?;
    }
    Ok(())
}

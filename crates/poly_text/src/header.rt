// The first line of a certificate.
ghost use Rattle.std.specs.Prelude.{◌≡◌, ◌≤◌, true, length};
ghost use Rattle.algebra_core.specs.Text.{algebra_header, first_line};
ghost use Rattle.mv_desk.specs.Calls.{Writes};
ghost use Rattle.mv_desk.specs.declared.slot.Slot.TheVariants.{Algebra};

use mv_desk::{Desk, Slot, WriteFault};
use mv_text::Output;

/// Appends the header of a version to the slot `Algebra`. After an error a front part was written.
pub fn write_header<D: Desk>(desk: &mut D, version: u8) -> Result<(), WriteFault>
    requires { (D.seen desk.old).writes Algebra ≡ true }
    ensures { Writes Algebra (algebra_header version) (D.seen desk.old) (D.seen desk.new) result }
{
    let mut output = Output::new(Slot::Algebra);
    output.put(desk, header(version));
    output.put(desk, b"\n");
    output.flush(desk)
}

/// The header of a version, without its line feed.
pub(crate) fn header(version: u8) -> &'static [u8]
    ensures text { result.now ≡ first_line version }
    ensures few { length result.now ≤ 5 }
{
    match version {
        1 => b"pac 1",
        2 => b"pac 2",
        _ => b"pac 3",
    }
}

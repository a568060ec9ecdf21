// The text of the lines that are made, written to a slot.
ghost use Rattle.std.specs.Prelude.{◌≡◌, true, All, IsSome};
ghost use Rattle.mv_desk.specs.Calls.{Writes};
ghost use Rattle.mv_desk.specs.declared.slot.Slot.TheVariants.{Algebra};
ghost use Rattle.graph_core.specs.Graph.Extended.{modulus};
ghost use Rattle.algebra_core.specs.Text.{IsLawfulAlgebraFile};
ghost use Rattle.pac_writer.specs.Spare.{IsSpareLine};
ghost use Rattle.pac_writer.specs.Certificates.{certificate_text};
ghost use Rattle.pac_writer.specs.Writing.{without_imports};

use crate::{Lines, write_certificate};
use mv_desk::{Desk, WriteFault};

impl<'a> Lines<'a> {
    /// Appends the whole certificate of a version to the slot `Algebra`: the header, the lines, and the closing
    /// line. After an error a front part of it was written.
    pub fn emit<D: Desk>(&self, desk: &mut D, version: u8) -> Result<(), WriteFault>
        requires open { (D.seen desk.old).writes Algebra ≡ true }
        requires closed { IsSome self.now.closing }
        ensures writes { Writes Algebra (certificate_text version self.now)
            (D.seen desk.old) (D.seen desk.new) result }
        ensures lawful { IsLawfulAlgebraFile (without_imports version self.now.extended) self.now.sides
            (certificate_text version self.now) }
        ensures spare { All (IsSpareLine (modulus self.now.extended)) self.now.lines }
    {
        match self.closing {
            Some(id) => write_certificate(desk, version, &self.terms, &self.lines, id),
            None => unreachable!(),
        }
    }
}

// A pair of certificates in memory, and how it is written: first the clause file.
ghost use Rattle.std.specs.Prelude.{◌≡◌, OnErr, OnOk};
ghost use Rattle.command_core.specs.Files.{files_of};
ghost use Rattle.command_core.specs.Written.{StopsAt, StopsWriting, WritesFile, WritesPair};
ghost use Rattle.mv_desk.specs.Calls.{HasWriteCause};
ghost use Rattle.mv_desk.specs.View.{KeepsTelling};
ghost use Rattle.mv_desk.specs.declared.slot.Slot.TheVariants as slot;
ghost use Rattle.pair_core.specs.Texts.{CanBeWritten, algebra_text, clauses_text};

use clause_core::Line;
use command_core::Names;
use drup_text::{Header, write_clauses};
use mv_desk::{Desk, Failed, Slot, WriteFault};
use pac_writer::write_certificate;
use poly_terms::Terms;
use poly_text::PacLine;

/// A clause certificate and an algebra certificate of its version.
#[derive(Drop)]
pub struct Pair {
    /// the header of the clause certificate
    pub header: Header,
    /// its lines
    pub clauses: Vec<Line>,
    /// the lines of the algebra certificate before the closing one
    pub algebra: Vec<PacLine>,
    /// the table of their polynomials
    pub terms: Terms,
    /// the id that the closing line names
    pub closing: u64,
}

/// Creates the clause file and writes it, and then the algebra file. It takes no memory. After an error a front part of
/// each created file was written.
pub fn write_pair<D: Desk>(desk: &mut D, pair: &Pair, names: &Names<&str>) -> Result<(), WriteFault>
    requires { CanBeWritten pair.now }
    ensures whole { OnOk result (WritesPair (files_of names.now) (clauses_text pair.now) (algebra_text pair.now)
        (D.seen desk.old) (D.seen desk.new)) }
    ensures stops { OnErr result (StopsWriting (files_of names.now) (λ text. text ≡ clauses_text pair.now)
        (λ beside text. text ≡ algebra_text pair.now) (D.seen desk.old) (D.seen desk.new)) }
    ensures cause { HasWriteCause (D.seen desk.old) (D.seen desk.new) result }
    ensures tells { KeepsTelling (D.seen desk.old) (D.seen desk.new) }
{
    match write_clause_file(desk, pair, names.clauses) {
        Ok(()) => write_algebra_file(desk, pair, names.algebra),
        Err(fault) => Err(fault),
    }
}

// The clause file.
fn write_clause_file<D: Desk>(desk: &mut D, pair: &Pair, name: &str) -> Result<(), WriteFault>
    requires { CanBeWritten pair.now }
    ensures whole { OnOk result (WritesFile slot.Clauses name.now (clauses_text pair.now)
        (D.seen desk.old) (D.seen desk.new)) }
    ensures stops { OnErr result (StopsAt slot.Clauses name.now (λ text. text ≡ clauses_text pair.now)
        (D.seen desk.old) (D.seen desk.new)) }
    ensures cause { HasWriteCause (D.seen desk.old) (D.seen desk.new) result }
    ensures tells { KeepsTelling (D.seen desk.old) (D.seen desk.new) }
{
    match desk.create_file(Slot::Clauses, name) {
        Ok(()) => write_clauses(desk, &pair.header, &pair.clauses),
        Err(Failed) => Err(WriteFault),
    }
}

// The algebra file.
fn write_algebra_file<D: Desk>(desk: &mut D, pair: &Pair, name: &str) -> Result<(), WriteFault>
    requires { CanBeWritten pair.now }
    ensures whole { OnOk result (WritesFile slot.Algebra name.now (algebra_text pair.now)
        (D.seen desk.old) (D.seen desk.new)) }
    ensures stops { OnErr result (StopsAt slot.Algebra name.now (λ text. text ≡ algebra_text pair.now)
        (D.seen desk.old) (D.seen desk.new)) }
    ensures cause { HasWriteCause (D.seen desk.old) (D.seen desk.new) result }
    ensures tells { KeepsTelling (D.seen desk.old) (D.seen desk.new) }
{
    match desk.create_file(Slot::Algebra, name) {
        Ok(()) => write_certificate(
            desk,
            pair.header.version,
            &pair.terms,
            &pair.algebra,
            pair.closing,
        ),
        Err(Failed) => Err(WriteFault),
    }
}

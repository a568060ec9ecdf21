// The lines that a checker recorded.
ghost use Rattle.std.specs.Prelude.{◌≡◌, ◌<◌, ◌++◌, vec_len, vec_capacity};
ghost use Rattle.pac_checker.specs.Recording.{kept_of};

use poly_terms::Terms;
use poly_text::PacLine;

/// Lines of an algebra certificate, and the table of their polynomials.
#[derive(Drop)]
pub struct Record {
    pub lines: Vec<PacLine>,
    pub terms: Terms,
}

/// Puts a line after those that are recorded, unless it is a deletion.
pub(crate) fn keep(recorded: &mut Vec<PacLine>, line: PacLine)
    requires room { vec_len recorded.old < vec_capacity recorded.old }
    ensures { recorded.new.items ≡ recorded.old.items ++ kept_of line }
{
    match line {
        PacLine::Drop { .. } => {}
        _ => recorded.push_reserved(line),
    }
}

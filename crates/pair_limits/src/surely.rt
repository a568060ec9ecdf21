// Algebra certificates that are within the limits whatever their numbers are.
ghost use Rattle.std.specs.Prelude.{◌≡◌, ◌<◌, ◌≤◌, ◌+◌, ◌*◌, ◌^◌, ℕ, true, All, IfSome, IsSome, IsTrue, decimal, get_or, length};
ghost use Rattle.graph_core.specs.Text.JudgedLines.{IsWithin};
ghost use Rattle.mv_text.specs.LineReading.{lengths_of};
ghost use Rattle.poly_terms.specs.Tables.{IsOf, modulus_in, monomials_in};
ghost use Rattle.poly_text.specs.Lines.{AreOf, line_in, parts_in};
ghost use Rattle.poly_text.specs.Recorded.{lines_in};
ghost use Rattle.poly_text.specs.WrittenLines.{parts_text, poly_text, text_in, written_certificate};

use mv_desk::Limits;
use poly_terms::{Poly, Terms};
use poly_text::PacLine;

// The most bytes that the first line has, with its line feed.
const HEADER: u64 = 6;
// The most that an id has with what stands before and after it, and a closing line with its line feed.
const ID: u64 = 32;
// The most that a coefficient has with its sign.
const COEFFICIENT: u64 = 40;
// The most that a variable has with its star.
const VARIABLE: u64 = 12;

/// Whether a certificate is within the limits for certain: by how many terms and variables its lines have, which is soon
/// counted. With false nothing is known.
pub(crate) fn is_surely_within(
    version: u8,
    terms: &Terms,
    lines: &[PacLine],
    closing: u64,
    limits: &Limits,
) -> bool
    requires go_on { All (λ line. IsSome (line_in terms.now line)) lines.now }
    requires of { All (AreOf terms.now) lines.now }
    ensures { IsTrue result → IsWithin (lengths_of limits.now)
        (written_certificate version (modulus_in terms.now) (lines_in terms.now lines.now) closing) }
{
    if limits.line < ID || limits.certificate < HEADER + ID {
        return false;
    }
    let mut file = limits.certificate - HEADER - ID;
    for line in lines {
        match file_behind(terms, line, file, limits.line) {
            Some(left) => file = left,
            None => return false,
        }
    }
    true
}

// Of so many bytes of a file, how many are left at least behind a line and its line feed. None where the line may have
// more than these or more than a line may have.
fn file_behind(terms: &Terms, line: &PacLine, file: u64, most: u64) -> Option<u64>
    requires { AreOf terms.now line.now }
    ensures line { IfSome result (λ left. length (text_in terms.now line.now) ≤ most) }
    ensures file { IfSome result (λ left. length (text_in terms.now line.now) + 1 + left ≤ file) }
{
    let bytes = bytes_of_line(terms, line)?;
    if most < bytes || file <= bytes {
        return None;
    }
    Some(file - bytes - 1)
}

// How many bytes a line has at most.
fn bytes_of_line(terms: &Terms, line: &PacLine) -> Option<u64>
    requires { AreOf terms.now line.now }
    ensures { IfSome result (λ bytes. length (text_in terms.now line.now) ≤ bytes) }
{
    let bytes = match line {
        PacLine::Sum { id, i, j, poly } => {
            let ids = bytes_of_id(*id) + bytes_of_id(*i) + bytes_of_id(*j);
            bytes_of_poly(terms, poly)?.checked_add(ids)?
        }
        PacLine::Product {
            id,
            i,
            factor,
            poly,
        } => {
            let ids = bytes_of_id(*id) + bytes_of_id(*i);
            let front = bytes_of_poly(terms, factor)?.checked_add(ids)?;
            bytes_of_poly(terms, poly)?.checked_add(front)?
        }
        PacLine::Combination { id, parts, poly } => {
            let parts = bytes_of_parts(terms, parts.as_slice())?;
            let front = parts.checked_add(bytes_of_id(*id))?;
            bytes_of_poly(terms, poly)?.checked_add(front)?
        }
        PacLine::Import { id, clause, poly } => {
            let ids = bytes_of_id(*id) + bytes_of_id(*clause);
            bytes_of_poly(terms, poly)?.checked_add(ids)?
        }
        PacLine::Drop { id } => bytes_of_id(*id),
        PacLine::Close { id } => bytes_of_id(*id),
    };
    Some(bytes)
}

// How many parts have.
fn bytes_of_parts(terms: &Terms, parts: &[(u64, Poly)]) -> Option<u64>
    requires { All (λ part. IsOf terms.now part.1) parts.now }
    ensures { IfSome result (λ bytes.
        length (parts_text (modulus_in terms.now) true (parts_in terms.now parts.now)) ≤ bytes) }
{
    let mut bytes: u64 = 0;
    for (id, factor) in parts {
        let more = bytes_of_poly(terms, factor)?.checked_add(bytes_of_id(*id))?;
        bytes = bytes.checked_add(more)?;
    }
    Some(bytes)
}

// How many a polynomial has.
fn bytes_of_poly(terms: &Terms, poly: &Poly) -> Option<u64>
    requires { IsOf terms.now poly.now }
    ensures { IfSome result (λ bytes.
        length (poly_text (modulus_in terms.now) (monomials_in terms.now poly.now)) ≤ bytes) }
{
    let _width = terms.exponent();
    let size = terms.size(poly);
    let mut bytes: u64 = 1;
    for i in 0..size {
        let more = bytes_of_term(terms.vars(poly, i))?;
        bytes = bytes.checked_add(more)?;
    }
    Some(bytes)
}

// How many a term with these variables has.
fn bytes_of_term(variables: &[u32]) -> Option<u64>
    ensures words { (i : ℕ) → get_or variables.now i 0 < 2 ^ 32 }
    ensures bytes { IfSome result (λ bytes. 40 + 12 * length variables.now ≤ bytes) }
{
    let factors = (variables.len() as u64).checked_mul(VARIABLE)?;
    factors.checked_add(COEFFICIENT)
}

// How many an id has, with what stands before and after it.
fn bytes_of_id(_id: u64) -> u64
    ensures short { length (decimal _id) ≤ 20 }
    ensures bytes { result ≡ 32 }
{
    ID
}

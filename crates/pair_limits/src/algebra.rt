// The text of an algebra certificate, line by line.
ghost use Rattle.std.specs.Prelude.{◌≡◌, ◌++◌, ◌∷◌, [], true, All, IsSome, codes, decimal};
ghost use Rattle.algebra_core.specs.Text.{first_line};
ghost use Rattle.graph_core.specs.Text.{newline};
ghost use Rattle.poly_terms.specs.Tables.{IsOf, modulus_in, monomials_in};
ghost use Rattle.poly_text.specs.Lines.{AreOf, line_in, part_in, parts_in};
ghost use Rattle.poly_text.specs.Recorded.{lines_in};
ghost use Rattle.poly_text.specs.WrittenLines.{closing_text, joint_text, part_text, parts_text, poly_text, text_in, written_certificate, written_lines, written_text};
ghost use Rattle.pair_limits.specs.Rooms.{Takes};

use crate::polynomials::put_poly;
use crate::room::Room;
use poly_terms::{Poly, Terms};
use poly_text::PacLine;

/// The header, lines and the closing line.
pub(crate) fn put_certificate(
    room: &mut Room,
    version: u8,
    terms: &Terms,
    lines: &[PacLine],
    closing: u64,
)
    requires go_on { All (λ line. IsSome (line_in terms.now line)) lines.now }
    requires of { All (AreOf terms.now) lines.now }
    ensures { Takes (written_certificate version (modulus_in terms.now) (lines_in terms.now lines.now) closing) room.old room.new }
{
    room.put(header(version));
    room.put(b"\n");
    put_lines(room, terms, lines);
    put_closing(room, closing);
    room.put(b"\n");
}

// What is written before the first line feed.
fn header(version: u8) -> &'static [u8]
    ensures { result.now ≡ first_line version }
{
    match version {
        1 => b"pac 1",
        2 => b"pac 2",
        _ => b"pac 3",
    }
}

fn put_lines(room: &mut Room, terms: &Terms, lines: &[PacLine])
    requires go_on { All (λ line. IsSome (line_in terms.now line)) lines.now }
    requires of { All (AreOf terms.now) lines.now }
    ensures { Takes (written_lines (modulus_in terms.now) (lines_in terms.now lines.now)) room.old room.new }
{
    for line in lines {
        put_line(room, terms, line);
        room.put(b"\n");
    }
}

// A line without its line feed.
fn put_line(room: &mut Room, terms: &Terms, line: &PacLine)
    requires { AreOf terms.now line.now }
    ensures { Takes (text_in terms.now line.now) room.old room.new }
{
    match line {
        PacLine::Sum { id, i, j, poly } => {
            put_id(room, *id, b" + ");
            put_id(room, *i, b", ");
            put_id(room, *j, b", ");
            put_stated(room, terms, poly);
        }
        PacLine::Product {
            id,
            i,
            factor,
            poly,
        } => {
            put_id(room, *id, b" * ");
            put_id(room, *i, b", ");
            put_poly(room, terms, factor);
            room.put(b", ");
            put_stated(room, terms, poly);
        }
        PacLine::Combination { id, parts, poly } => {
            put_id(room, *id, b" % ");
            put_parts(room, terms, parts.as_slice());
            room.put(b", ");
            put_stated(room, terms, poly);
        }
        PacLine::Import { id, clause, poly } => {
            put_id(room, *id, b" c ");
            put_id(room, *clause, b", ");
            put_stated(room, terms, poly);
        }
        PacLine::Drop { id } => put_id(room, *id, b" d;"),
        PacLine::Close { id } => put_closing(room, *id),
    }
}

fn put_closing(room: &mut Room, id: u64)
    ensures { Takes (closing_text id) room.old room.new }
{
    room.put(b"q ");
    put_id(room, id, b";");
}

// The polynomial that ends a line.
fn put_stated(room: &mut Room, terms: &Terms, poly: &Poly)
    requires { IsOf terms.now poly.now }
    ensures { let text = poly_text (modulus_in terms.now) (monomials_in terms.now poly.now) in
        Takes (text ++ codes ";") room.old room.new }
{
    put_poly(room, terms, poly);
    room.put(b";");
}

// Parts, with a plus between each two.
fn put_parts(room: &mut Room, terms: &Terms, parts: &[(u64, Poly)])
    requires { All (λ part. IsOf terms.now part.1) parts.now }
    ensures { Takes (parts_text (modulus_in terms.now) true (parts_in terms.now parts.now)) room.old room.new }
{
    for (index, (id, factor)) in parts.iter().enumerate() {
        room.put(joint(index == 0));
        put_part(room, terms, *id, factor);
    }
}

// A line's id times a polynomial.
fn put_part(room: &mut Room, terms: &Terms, id: u64, factor: &Poly)
    requires { IsOf terms.now factor.now }
    ensures { Takes (part_text (modulus_in terms.now) (part_in terms.now (id, factor.now))) room.old room.new }
{
    put_id(room, id, b" * (");
    put_poly(room, terms, factor);
    room.put(b")");
}

// An id, and what stands after it.
fn put_id(room: &mut Room, id: u64, end: &[u8])
    ensures { Takes (decimal id ++ end.now) room.old room.new }
{
    room.put_number(u128::from(id));
    room.put(end);
}

// What stands before a part.
fn joint(first: bool) -> &'static [u8]
    ensures { result.now ≡ joint_text first }
{
    if first { b"" } else { b" + " }
}

// Polynomials, as they are written.
ghost use Rattle.std.specs.Prelude.{◌≡◌, ◌<◌, ◌*◌, ◌^◌, ◌==◌, ◌&&◌, get_or, length, nat_lt};
ghost use Rattle.mv_nums.specs.Residue.{IsWidth};
ghost use Rattle.poly_terms.specs.Tables.{IsOf, modulus_in, monomials_in};
ghost use Rattle.poly_text.specs.WrittenLines.{factors_text, is_bare, lesser_of, mark_text, poly_text, product_text, sign_text, signed_term, term_text, zero_term};
ghost use Rattle.pair_limits.specs.Rooms.{Takes};

use crate::room::Room;
use mv_nums::Residue;
use poly_terms::{Poly, Terms};

/// 0 where it has no terms.
pub(crate) fn put_poly(room: &mut Room, terms: &Terms, poly: &Poly)
    requires { IsOf terms.now poly.now }
    ensures { Takes (poly_text (modulus_in terms.now) (monomials_in terms.now poly.now)) room.old room.new }
{
    let size = terms.size(poly);
    if size == 0 {
        return room.put(b"0");
    }
    for i in 0..size {
        put_term(room, terms, poly, i);
    }
}

// A term with its sign, by its place from 0.
fn put_term(room: &mut Room, terms: &Terms, poly: &Poly, i: u64)
    requires of { IsOf terms.now poly.now }
    requires place { i < length (monomials_in terms.now poly.now) }
    ensures { let term = get_or (monomials_in terms.now poly.now) i zero_term in
        Takes (term_text (i == 0) (signed_term (modulus_in terms.now) term)) room.old room.new }
{
    let (negative, coefficient) = signed(terms.exponent(), terms.coefficient(poly, i));
    room.put(sign(i == 0, negative));
    put_product(room, coefficient, terms.vars(poly, i));
}

// A coefficient and variables. A coefficient 1 isn't written before variables.
fn put_product(room: &mut Room, coefficient: u128, variables: &[u32])
    ensures { Takes (product_text coefficient variables.now) room.old room.new }
{
    if is_bare(coefficient, variables) {
        put_factors(room, true, variables);
    } else {
        room.put_number(coefficient);
        put_factors(room, false, variables);
    }
}

// Variables, each after a star, but the first one of a bare term.
fn put_factors(room: &mut Room, bare: bool, variables: &[u32])
    ensures { Takes (factors_text bare variables.now) room.old room.new }
{
    for (index, variable) in variables.iter().enumerate() {
        room.put(mark(index == 0, bare));
        room.put_number(u128::from(*variable));
    }
}

// The sign of a coefficient, and what is written after it: of it and its opposite the lesser.
fn signed(exponent: u32, coefficient: u128) -> (bool, u128)
    requires exponent { IsWidth exponent }
    requires some { 0 < coefficient }
    requires below { coefficient < 2 ^ exponent }
    ensures sign { result.0 ≡ nat_lt (2 ^ exponent) (2 * coefficient) }
    ensures lesser { result.1 ≡ lesser_of (2 ^ exponent) coefficient }
{
    let opposite = Residue::new(exponent, coefficient).neg().value();
    if opposite < coefficient {
        (true, opposite)
    } else {
        (false, coefficient)
    }
}

// Whether variables stand without a coefficient.
fn is_bare(coefficient: u128, variables: &[u32]) -> bool
    ensures { result ≡ is_bare coefficient variables.now }
{
    coefficient == 1 && !variables.is_empty()
}

// What stands before a variable.
fn mark(first: bool, bare: bool) -> &'static [u8]
    ensures { result.now ≡ mark_text (first && bare) }
{
    if first && bare { b"x" } else { b"*x" }
}

// The text of a sign; the first one has no plus.
fn sign(first: bool, negative: bool) -> &'static [u8]
    ensures { result.now ≡ sign_text first negative }
{
    if negative {
        b"-"
    } else if first {
        b""
    } else {
        b"+"
    }
}

// What a step makes of polynomials.
#![tactic(auto, using(poly_terms::specs::Laws::stays, poly_terms::specs::Laws::extends_on, poly_terms::specs::Laws::extends_itself))]

ghost use Rattle.std.specs.Prelude.{◌≡◌, ◌<◌, ◌%◌, ◌+◌, ◌*◌, ◌^◌, ◌∷◌, [], IfOk};
ghost use Rattle.graph_core.specs.Graph.Assignments.{Assignment, bit};
ghost use Rattle.algebra_core.specs.Polynomials.{difference};
ghost use Rattle.poly_terms.specs.Tables.{IsOf, Extends, given, modulus_in, value_in};
ghost use Rattle.column_reducer.specs.Gathering.{term_of};

use graph_core::Memory;
use mv_nums::Residue;
use poly_terms::{Poly, Terms};
use std::alloc::{AllocError, Global};

// The number 2^k, for k below the exponent of the modulus.
pub(crate) fn power_poly(alloc: Global, terms: &mut Terms, k: u32) -> Result<Poly, Memory>
    requires { k < terms.old.exponent }
    ensures extends { Extends terms.old terms.new }
    ensures of { IfOk result (IsOf terms.new) }
    ensures value { IfOk result (λ p. (σ : Assignment) → value_in terms.new p σ ≡ 2 ^ k) }
{
    let _exponent = terms.exponent();
    constant(alloc, terms, 1 << k)
}

// The polynomial of no monomials.
pub(crate) fn zero_poly(alloc: Global, terms: &mut Terms) -> Result<Poly, Memory>
    ensures extends { Extends terms.old terms.new }
    ensures of { IfOk result (IsOf terms.new) }
    ensures value { IfOk result (λ p. (σ : Assignment) → value_in terms.new p σ ≡ 0) }
{
    bit_poly(alloc, terms, false)
}

// Minus a polynomial.
pub(crate) fn opposite(terms: &Terms, p: &Poly) -> Result<Poly, Memory>
    requires { IsOf terms.now p.now }
    ensures of { IfOk result (IsOf terms.now) }
    ensures value { IfOk result (λ r. (σ : Assignment) → value_in terms.now r σ ≡
        difference (modulus_in terms.now) 0 (value_in terms.now p.now σ)) }
{
    let less = minus_one(terms);
    terms.multiple(p, less.value())
}

// Minus 2^k, for k below the exponent of the modulus.
pub(crate) fn minus_power(terms: &Terms, k: u32) -> u128
    requires { k < terms.now.exponent }
    ensures { (result + 2 ^ k) % modulus_in terms.now ≡ 0 }
{
    let exponent = terms.exponent();
    Residue::new(exponent, 1 << k).neg().value()
}

// A coefficient times variables, as the only part.
fn part_of(
    alloc: Global,
    number: u128,
    variables: Vec<u32>,
) -> Result<Vec<(u128, Vec<u32>)>, AllocError>
    ensures { IfOk result (λ parts. given parts.items ≡ term_of number variables.items ∷ []) }
{
    let mut parts = Vec::new(alloc);
    parts.push((number, variables))?;
    Ok(parts)
}

// A number, modulo the table's modulus.
fn constant(alloc: Global, terms: &mut Terms, number: u128) -> Result<Poly, Memory>
    ensures extends { Extends terms.old terms.new }
    ensures of { IfOk result (IsOf terms.new) }
    ensures value { IfOk result (λ p. (σ : Assignment) → value_in terms.new p σ ≡ number % modulus_in terms.old) }
{
    let parts = part_of(alloc, number, Vec::new(alloc))?;
    let poly = terms.make(&parts)?;
    Ok(poly)
}

// The number 1 for true and 0 for false.
fn bit_poly(alloc: Global, terms: &mut Terms, value: bool) -> Result<Poly, Memory>
    ensures extends { Extends terms.old terms.new }
    ensures of { IfOk result (IsOf terms.new) }
    ensures value { IfOk result (λ p. (σ : Assignment) → value_in terms.new p σ ≡ bit value) }
{
    let _exponent = terms.exponent();
    constant(alloc, terms, u128::from(value))
}

fn minus_one(terms: &Terms) -> Residue
    ensures width { result.width ≡ terms.now.exponent }
    ensures value { (result.value + 1) % modulus_in terms.now ≡ 0 }
{
    Residue::new(terms.exponent(), 1).neg()
}

// poly_terms: polynomials of few variables, with their values.
#![tactic(auto, using(poly_terms::specs::Laws::stays, poly_terms::specs::Laws::extends_on, poly_terms::specs::Laws::extends_itself))]

ghost use Rattle.std.specs.Prelude.{IfOk};
ghost use Rattle.poly_terms.specs.Tables.{Extends, IsOf};

use poly_terms::{Poly, Terms};
use std::alloc::{AllocError, Global};
use std::test::Fail;

// A coefficient times a product of variables, as `make` takes it.
fn part(
    alloc: Global,
    coefficient: u128,
    variables: &[u32],
) -> Result<(u128, Vec<u32>), AllocError> {
    Ok((coefficient, variables.to_vec(alloc)?))
}

// 3 + 2 * x2, modulo 16.
fn three_and_two(alloc: Global, terms: &mut Terms) -> Result<Poly, Fail>
    ensures of { IfOk result (IsOf terms.new) }
    ensures extends { Extends terms.old terms.new }
{
    let poly = terms.make(&[part(alloc, 3, &[])?, part(alloc, 2, &[2])?])?;
    Ok(poly)
}

// The values of p * p + p and of p + p * p + p at an assignment, where p is 3 + 2 * x2.
fn sums(alloc: Global, terms: &mut Terms) -> Result<(u128, u128), Fail> {
    let p = three_and_two(alloc, terms)?;
    let both = terms.combine(&p, &p, &p)?;
    let sum = terms.add(&p, &both)?;
    let at = [false, true, true];
    Ok((terms.value_at(&both, &at), terms.value_at(&sum, &at)))
}

#[test]
fn adds_and_multiplies(rt: HostRuntime) -> Result<(), Fail> {
    let mut terms = Terms::new(rt.alloc(), 4);
    assert!(rt; sums(rt.alloc(), &mut terms)? == (14, 3));
    Ok(())
}

// The values of p with itself in place of x2, and of p divided by x2, at an assignment.
fn parts(alloc: Global, terms: &mut Terms) -> Result<(u128, u128), Fail> {
    let p = three_and_two(alloc, terms)?;
    let replaced = terms.substitute(&p, 2, &p)?;
    let quotient = terms.quotient(&p, 2)?;
    let at = [false, true, true];
    Ok((
        terms.value_at(&replaced, &at),
        terms.value_at(&quotient, &at),
    ))
}

#[test]
fn replaces_and_divides(rt: HostRuntime) -> Result<(), Fail> {
    let mut terms = Terms::new(rt.alloc(), 4);
    assert!(rt; parts(rt.alloc(), &mut terms)? == (13, 2));
    Ok(())
}

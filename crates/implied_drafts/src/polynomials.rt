// Small polynomials: what literals and gates are made of.
use graph_core::{Gate, Lit, Memory};
use std::alloc::Global;

/// A coefficient times variables.
pub(crate) type Term = (u128, Vec<u32>);

/// Minus 1, to any modulus.
pub(crate) const MINUS_ONE: u128 = u128::MAX;

/// The number 1.
pub(crate) fn one(alloc: Global) -> Result<Vec<Term>, Memory> {
    constant(alloc, 1)
}

/// A number.
pub(crate) fn constant(alloc: Global, number: u128) -> Result<Vec<Term>, Memory> {
    let mut terms = Vec::new(alloc);
    terms.push((number, Vec::new(alloc)))?;
    Ok(terms)
}

/// A variable.
pub(crate) fn variable(alloc: Global, v: u32) -> Result<Vec<Term>, Memory> {
    let mut terms = Vec::new(alloc);
    push_variable(alloc, &mut terms, 1, v)?;
    Ok(terms)
}

/// A literal: its variable, or 1 minus it.
pub(crate) fn literal(alloc: Global, lit: Lit) -> Result<Vec<Term>, Memory> {
    let mut terms = Vec::new(alloc);
    let sign = if lit.negated() { MINUS_ONE } else { 1 };
    if lit.negated() {
        terms.push((1, Vec::new(alloc)))?;
    }
    if lit.var() > 0 {
        push_variable(alloc, &mut terms, sign, lit.var())?;
    }
    Ok(terms)
}

fn push_variable(
    alloc: Global,
    terms: &mut Vec<Term>,
    coefficient: u128,
    v: u32,
) -> Result<(), Memory> {
    terms.push((coefficient, vec![in alloc; v; 1]?))?;
    Ok(())
}

/// Terms times a coefficient and some variables.
pub(crate) fn times(
    alloc: Global,
    terms: &[Term],
    coefficient: u128,
    variables: &[u32],
) -> Result<Vec<Term>, Memory> {
    let mut product = Vec::new(alloc);
    for (number, list) in terms {
        let mut all = Vec::new(alloc);
        all.extend_from_slice(list)?;
        all.extend_from_slice(variables)?;
        product.push((number.wrapping_mul(coefficient), all))?;
    }
    Ok(product)
}

/// The product of a gate's operands, at most four terms.
pub(crate) fn operands_of(alloc: Global, gate: &Gate) -> Result<Vec<Term>, Memory> {
    let left = literal(alloc, gate.left)?;
    let right = literal(alloc, gate.right)?;
    let mut product = Vec::new(alloc);
    for (number, list) in left.iter() {
        for term in times(alloc, &right, *number, list)? {
            product.push(term)?;
        }
    }
    Ok(product)
}

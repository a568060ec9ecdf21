// Terms of coefficients and variables as a caller gives them.
ghost use Rattle.std.specs.Prelude.{◌≡◌, ◌*◌, ◌^◌, ℕ, IfOk, OnOk, []};
ghost use Rattle.algebra_core.specs.Polynomials.{product, sum_of};
ghost use Rattle.mv_nums.specs.Residue.{IsWidth};
ghost use Rattle.poly_terms.specs.Monomials.{Adds, AreIn, Grows, total_in};
ghost use Rattle.poly_terms.specs.Tables.{given, said};

use crate::numbering::Numbering;
use crate::term::Term;
use crate::{Variables, monomial, multiplication};
use graph_core::Memory;
use std::alloc::{AllocError, Global};

/// Parts whose variables each have a list of their own.
pub(crate) fn copies(
    alloc: Global,
    parts: &[(u128, Vec<u32>)],
) -> Result<Vec<(u128, Variables)>, Memory>
    ensures { IfOk result (λ out. said out.items ≡ given parts.now) }
{
    let mut out = Vec::with_capacity(alloc, parts.len())?;
    for (coefficient, variables) in parts {
        out.push((*coefficient, Variables::of(alloc, variables)?))?;
    }
    Ok(out)
}

/// The terms of parts, over a table that takes their monomials.
pub(crate) fn entries_of(
    alloc: Global,
    table: &mut Numbering,
    parts: &[(u128, Variables)],
) -> Result<Vec<Term>, AllocError>
    ensures grows { Grows table.old table.new }
    ensures adds { IfOk result (λ out. (m : ℕ) → Adds m table.old table.new [] out.items
        (λ σ. sum_of m (said parts.now) σ)) }
{
    let mut out = Vec::with_capacity(alloc, parts.len())?;
    for (coefficient, variables) in parts {
        push_part(alloc, table, *coefficient, variables.as_slice(), &mut out)?;
    }
    Ok(out)
}

/// The products of each term with each part, over a table that takes their monomials.
pub(crate) fn products_of(
    alloc: Global,
    table: &mut Numbering,
    exponent: u32,
    entries: &[Term],
    parts: &[(u128, Variables)],
) -> Result<Vec<Term>, AllocError>
    requires exponent { IsWidth exponent }
    requires entries { AreIn table.old entries.now }
    ensures grows { Grows table.old table.new }
    ensures adds { IfOk result (λ out. Adds (2 ^ exponent) table.old table.new [] out.items
        (λ σ. total_in table.old σ entries.now * sum_of (2 ^ exponent) (said parts.now) σ)) }
{
    let count = entries.len().saturating_mul(parts.len());
    let mut out = Vec::with_capacity(alloc, count)?;
    for (coefficient, variables) in parts {
        push_products(
            alloc,
            table,
            exponent,
            *coefficient,
            variables.as_slice(),
            entries,
            &mut out,
        )?;
    }
    Ok(out)
}

// Puts the term of a part after others. A part over the constant 0 has none.
#[inline(always)]
fn push_part(
    alloc: Global,
    table: &mut Numbering,
    coefficient: u128,
    variables: &[u32],
    out: &mut Vec<Term>,
) -> Result<(), AllocError>
    ensures grows { Grows table.old table.new }
    ensures adds { OnOk result ((m : ℕ) → Adds m table.old table.new out.old.items out.new.items
        (λ σ. coefficient * product σ variables.now)) }
{
    // Most often they rise as they stand.
    if monomial::is_rising(variables) {
        return multiplication::push_variables(table, variables, coefficient, out);
    }
    if monomial::has_variable(variables, 0) {
        return Ok(());
    }
    let monomial = monomial::from_variables(alloc, variables)?;
    multiplication::push_term(table, monomial, coefficient, out)
}

// Puts the products of a part with each term after others. A part over the constant 0 has none.
fn push_products(
    alloc: Global,
    table: &mut Numbering,
    exponent: u32,
    coefficient: u128,
    variables: &[u32],
    entries: &[Term],
    out: &mut Vec<Term>,
) -> Result<(), AllocError>
    requires exponent { IsWidth exponent }
    requires entries { AreIn table.old entries.now }
    ensures grows { Grows table.old table.new }
    ensures adds { OnOk result (Adds (2 ^ exponent) table.old table.new out.old.items out.new.items
        (λ σ. coefficient * product σ variables.now * total_in table.old σ entries.now)) }
{
    // Most often they rise as they stand.
    if monomial::is_rising(variables) {
        return multiplication::multiply_behind(
            table,
            exponent,
            variables,
            coefficient,
            entries,
            out,
        );
    }
    if monomial::has_variable(variables, 0) {
        return Ok(());
    }
    let monomial = monomial::from_variables(alloc, variables)?;
    multiplication::multiply_behind(
        table,
        exponent,
        monomial.as_slice(),
        coefficient,
        entries,
        out,
    )
}

// Products of terms and parts, added up by number.
ghost use Rattle.std.specs.Prelude.{◌*◌, ◌<◌, ◌^◌, [], OnOk, length, get_or};
ghost use Rattle.algebra_core.specs.NormalForm.{AreRising};
ghost use Rattle.algebra_core.specs.Polynomials.{product, sum_of};
ghost use Rattle.mv_nums.specs.Residue.{IsWidth};
ghost use Rattle.poly_terms.specs.Monomials.{AreIn, Grows, total_in};
ghost use Rattle.poly_terms.specs.PolySums.{AreListed, Gains};
ghost use Rattle.poly_terms.specs.Tables.{said};

use crate::coefficients::Coefficients;
use crate::numbering::Numbering;
use crate::poly_sum::add_term;
use crate::term::Term;
use crate::{Variables, monomial};
use std::alloc::{AllocError, Global};

/// Adds the products of each term with each part.
pub(crate) fn add_multiples(
    alloc: Global,
    width: u32,
    table: &mut Numbering,
    coefficients: &mut Coefficients,
    numbers: &mut Vec<u64>,
    entries: &[Term],
    parts: &[(u128, Variables)],
) -> Result<(), AllocError>
    requires width { IsWidth width }
    requires entries { AreIn table.old entries.now }
    requires listed { AreListed coefficients.old numbers.old.items }
    ensures listed { AreListed coefficients.new numbers.new.items }
    ensures grows { Grows table.old table.new }
    ensures gains { OnOk result (Gains (2 ^ width) table.old table.new coefficients.old coefficients.new
        (λ σ. total_in table.old σ entries.now * sum_of (2 ^ width) (said parts.now) σ)) }
{
    for (number, variables) in parts {
        add_part(
            alloc,
            width,
            table,
            coefficients,
            numbers,
            entries,
            *number,
            variables.as_slice(),
        )?;
    }
    Ok(())
}

// Adds the products of each term with a part. A part over the constant 0 adds nothing.
#[inline(always)]
fn add_part(
    alloc: Global,
    width: u32,
    table: &mut Numbering,
    coefficients: &mut Coefficients,
    numbers: &mut Vec<u64>,
    entries: &[Term],
    number: u128,
    variables: &[u32],
) -> Result<(), AllocError>
    requires width { IsWidth width }
    requires entries { AreIn table.old entries.now }
    requires listed { AreListed coefficients.old numbers.old.items }
    ensures listed { AreListed coefficients.new numbers.new.items }
    ensures grows { Grows table.old table.new }
    ensures gains { OnOk result (Gains (2 ^ width) table.old table.new coefficients.old coefficients.new
        (λ σ. number * product σ variables.now * total_in table.old σ entries.now)) }
{
    // Most often they rise as they stand.
    if monomial::is_rising(variables) {
        return add_scaled(
            width,
            table,
            coefficients,
            numbers,
            entries,
            number,
            variables,
        );
    }
    if monomial::has_variable(variables, 0) {
        return Ok(());
    }
    let monomial = monomial::from_variables(alloc, variables)?;
    add_scaled(
        width,
        table,
        coefficients,
        numbers,
        entries,
        number,
        monomial.as_slice(),
    )
}

// Adds a monomial with its coefficient times each term.
#[inline(always)]
fn add_scaled(
    width: u32,
    table: &mut Numbering,
    coefficients: &mut Coefficients,
    numbers: &mut Vec<u64>,
    entries: &[Term],
    number: u128,
    monomial: &[u32],
) -> Result<(), AllocError>
    requires width { IsWidth width }
    requires monomial { AreRising 0 monomial.now }
    requires entries { AreIn table.old entries.now }
    requires listed { AreListed coefficients.old numbers.old.items }
    ensures listed { AreListed coefficients.new numbers.new.items }
    ensures grows { Grows table.old table.new }
    ensures gains { OnOk result (Gains (2 ^ width) table.old table.new coefficients.old coefficients.new
        (λ σ. number * product σ monomial.now * total_in table.old σ entries.now)) }
{
    for entry in entries {
        add_one(width, table, coefficients, numbers, number, monomial, entry)?;
    }
    Ok(())
}

#[inline(always)]
fn add_one(
    width: u32,
    table: &mut Numbering,
    coefficients: &mut Coefficients,
    numbers: &mut Vec<u64>,
    number: u128,
    monomial: &[u32],
    entry: &Term,
) -> Result<(), AllocError>
    requires width { IsWidth width }
    requires monomial { AreRising 0 monomial.now }
    requires entry { entry.now.0 < length table.old }
    requires listed { AreListed coefficients.old numbers.old.items }
    ensures listed { AreListed coefficients.new numbers.new.items }
    ensures grows { Grows table.old table.new }
    ensures gains { OnOk result (Gains (2 ^ width) table.old table.new coefficients.old coefficients.new
        (λ σ. number * product σ monomial.now *
        (entry.now.1 * product σ (get_or table.old entry.now.0 [])))) }
{
    let place = table.multiple(monomial, entry.number())?;
    // Modulo 2^128 is enough, since what is added up is reduced.
    let coefficient = number.wrapping_mul(entry.coefficient());
    add_term(width, coefficients, numbers, &Term::new(place, coefficient))
}

// Products of terms, added up by number.
ghost use Rattle.std.specs.Prelude.{◌*◌, ◌<◌, ◌^◌, [], OnOk, length, get_or};
ghost use Rattle.algebra_core.specs.Polynomials.{product};
ghost use Rattle.mv_nums.specs.Residue.{IsWidth};
ghost use Rattle.poly_terms.specs.Monomials.{AreIn, Grows, total_in};
ghost use Rattle.poly_terms.specs.PolySums.{AreListed, Gains};

use crate::coefficient;
use crate::coefficients::Coefficients;
use crate::numbering::Numbering;
use crate::poly_sum::add_term;
use crate::term::Term;
use std::alloc::AllocError;

/// Adds the products of each term with each.
pub(crate) fn add_products(
    width: u32,
    table: &mut Numbering,
    coefficients: &mut Coefficients,
    numbers: &mut Vec<u64>,
    left: &[Term],
    right: &[Term],
) -> Result<(), AllocError>
    requires width { IsWidth width }
    requires left { AreIn table.old left.now }
    requires right { AreIn table.old right.now }
    requires listed { AreListed coefficients.old numbers.old.items }
    ensures listed { AreListed coefficients.new numbers.new.items }
    ensures grows { Grows table.old table.new }
    ensures gains { OnOk result (Gains (2 ^ width) table.old table.new coefficients.old coefficients.new
        (λ σ. total_in table.old σ left.now * total_in table.old σ right.now)) }
{
    for by in right {
        add_multiple(width, table, coefficients, numbers, left, by)?;
    }
    Ok(())
}

// Adds the products of terms with one.
fn add_multiple(
    width: u32,
    table: &mut Numbering,
    coefficients: &mut Coefficients,
    numbers: &mut Vec<u64>,
    entries: &[Term],
    by: &Term,
) -> Result<(), AllocError>
    requires width { IsWidth width }
    requires entries { AreIn table.old entries.now }
    requires by { by.now.0 < length table.old }
    requires listed { AreListed coefficients.old numbers.old.items }
    ensures listed { AreListed coefficients.new numbers.new.items }
    ensures grows { Grows table.old table.new }
    ensures gains { OnOk result (Gains (2 ^ width) table.old table.new coefficients.old coefficients.new
        (λ σ. by.now.1 * product σ (get_or table.old by.now.0 []) * total_in table.old σ entries.now)) }
{
    for entry in entries {
        add_product(width, table, coefficients, numbers, by, entry)?;
    }
    Ok(())
}

#[inline(always)]
fn add_product(
    width: u32,
    table: &mut Numbering,
    coefficients: &mut Coefficients,
    numbers: &mut Vec<u64>,
    by: &Term,
    entry: &Term,
) -> Result<(), AllocError>
    requires width { IsWidth width }
    requires by { by.now.0 < length table.old }
    requires entry { entry.now.0 < length table.old }
    requires listed { AreListed coefficients.old numbers.old.items }
    ensures listed { AreListed coefficients.new numbers.new.items }
    ensures grows { Grows table.old table.new }
    ensures gains { OnOk result (Gains (2 ^ width) table.old table.new coefficients.old coefficients.new
        (λ σ. by.now.1 * product σ (get_or table.old by.now.0 []) *
        (entry.now.1 * product σ (get_or table.old entry.now.0 [])))) }
{
    let number = table.product(by.number(), entry.number())?;
    let coefficient = coefficient::product(width, by.coefficient(), entry.coefficient());
    add_term(
        width,
        coefficients,
        numbers,
        &Term::new(number, coefficient),
    )
}

// Products of terms, in any order.
ghost use Rattle.std.specs.Prelude.{◌*◌, ◌^◌, ◌<◌, ℕ, OnOk, IfOk, [], length, get_or};
ghost use Rattle.algebra_core.specs.NormalForm.{AreRising};
ghost use Rattle.algebra_core.specs.Polynomials.{product};
ghost use Rattle.mv_nums.specs.Residue.{IsWidth};
ghost use Rattle.poly_terms.specs.Monomials.{Adds, AreIn, Grows, total_in};

use crate::coefficient;
use crate::monomial::{self, Monomial};
use crate::numbering::Numbering;
use crate::term::Term;
use std::alloc::{AllocError, Global};

/// The products of each term with each.
pub(crate) fn products_of(
    alloc: Global,
    table: &mut Numbering,
    exponent: u32,
    left: &[Term],
    right: &[Term],
) -> Result<Vec<Term>, AllocError>
    requires exponent { IsWidth exponent }
    requires left { AreIn table.old left.now }
    requires right { AreIn table.old right.now }
    ensures grows { Grows table.old table.new }
    ensures adds { IfOk result (λ out. Adds (2 ^ exponent) table.old table.new [] out.items
        (λ σ. total_in table.old σ left.now * total_in table.old σ right.now)) }
{
    let count = left.len().saturating_mul(right.len());
    let mut out = Vec::with_capacity(alloc, count)?;
    for by in right {
        multiply_by(alloc, table, exponent, left, by, &mut out)?;
    }
    Ok(out)
}

/// A monomial with its coefficient times each term, after others.
pub(crate) fn multiply_behind(
    table: &mut Numbering,
    exponent: u32,
    monomial: &[u32],
    coefficient: u128,
    entries: &[Term],
    out: &mut Vec<Term>,
) -> Result<(), AllocError>
    requires exponent { IsWidth exponent }
    requires monomial { AreRising 0 monomial.now }
    requires entries { AreIn table.old entries.now }
    ensures grows { Grows table.old table.new }
    ensures adds { OnOk result (Adds (2 ^ exponent) table.old table.new out.old.items out.new.items
        (λ σ. coefficient * product σ monomial.now * total_in table.old σ entries.now)) }
{
    out.reserve(entries.len())?;
    for entry in entries {
        push_product(table, exponent, monomial, coefficient, entry, out)?;
    }
    Ok(())
}

/// A monomial with its coefficient, after others.
#[inline(always)]
pub(crate) fn push_term(
    table: &mut Numbering,
    monomial: Monomial,
    coefficient: u128,
    out: &mut Vec<Term>,
) -> Result<(), AllocError>
    requires { AreRising 0 monomial.items }
    ensures grows { Grows table.old table.new }
    ensures adds { OnOk result ((m : ℕ) → Adds m table.old table.new out.old.items out.new.items
        (λ σ. coefficient * product σ monomial.items)) }
{
    let number = table.intern(monomial)?;
    out.push(Term::new(number, coefficient))?;
    Ok(())
}

/// The same of a monomial's variables.
#[inline(always)]
pub(crate) fn push_variables(
    table: &mut Numbering,
    variables: &[u32],
    coefficient: u128,
    out: &mut Vec<Term>,
) -> Result<(), AllocError>
    requires { AreRising 0 variables.now }
    ensures grows { Grows table.old table.new }
    ensures adds { OnOk result ((m : ℕ) → Adds m table.old table.new out.old.items out.new.items
        (λ σ. coefficient * product σ variables.now)) }
{
    let number = table.intern_slice(variables)?;
    out.push(Term::new(number, coefficient))?;
    Ok(())
}

fn multiply_by(
    alloc: Global,
    table: &mut Numbering,
    exponent: u32,
    entries: &[Term],
    by: &Term,
    out: &mut Vec<Term>,
) -> Result<(), AllocError>
    requires exponent { IsWidth exponent }
    requires entries { AreIn table.old entries.now }
    requires by { by.now.0 < length table.old }
    ensures grows { Grows table.old table.new }
    ensures adds { OnOk result (Adds (2 ^ exponent) table.old table.new out.old.items out.new.items
        (λ σ. by.now.1 * product σ (get_or table.old by.now.0 []) * total_in table.old σ entries.now)) }
{
    let monomial = monomial::copy(alloc, table.variables(by.number()))?;
    multiply_behind(
        table,
        exponent,
        monomial.as_slice(),
        by.coefficient(),
        entries,
        out,
    )
}

fn push_product(
    table: &mut Numbering,
    exponent: u32,
    monomial: &[u32],
    coefficient: u128,
    entry: &Term,
    out: &mut Vec<Term>,
) -> Result<(), AllocError>
    requires exponent { IsWidth exponent }
    requires monomial { AreRising 0 monomial.now }
    requires entry { entry.now.0 < length table.old }
    ensures grows { Grows table.old table.new }
    ensures adds { OnOk result (Adds (2 ^ exponent) table.old table.new out.old.items out.new.items
        (λ σ. coefficient * product σ monomial.now *
        (entry.now.1 * product σ (get_or table.old entry.now.0 [])))) }
{
    let number = table.multiple(monomial, entry.number())?;
    let coefficient = coefficient::product(exponent, coefficient, entry.coefficient());
    out.push(Term::new(number, coefficient))?;
    Ok(())
}

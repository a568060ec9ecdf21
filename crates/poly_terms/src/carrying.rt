// Terms with their monomials in another table.
ghost use Rattle.std.specs.Prelude.{◌*◌, ◌<◌, ℕ, [], IfOk, OnOk, length, get_or};
ghost use Rattle.algebra_core.specs.Polynomials.{product};
ghost use Rattle.poly_terms.specs.Monomials.{Adds, AreIn, Grows, total_in};

use crate::numbering::Numbering;
use crate::term::Term;
use crate::{monomial, multiplication};
use std::alloc::{AllocError, Global};

/// The terms, but those that are 0, with their monomials in another table.
pub(crate) fn carry_all(
    alloc: Global,
    from: &Numbering,
    terms: &[Term],
    table: &mut Numbering,
) -> Result<Vec<Term>, AllocError>
    requires { AreIn from.now terms.now }
    ensures grows { Grows table.old table.new }
    ensures adds { IfOk result (λ out. (m : ℕ) → Adds m table.old table.new [] out.items
        (λ σ. total_in from.now σ terms.now)) }
{
    let mut out = Vec::with_capacity(alloc, count(terms))?;
    for term in terms {
        carry_behind(alloc, from, term, table, &mut out)?;
    }
    Ok(out)
}

// how many terms aren't 0
fn count(terms: &[Term]) -> usize {
    terms.iter().filter(|term| term.coefficient() != 0).count()
}

// A term with its monomial in another table, after others, unless it is 0.
fn carry_behind(
    alloc: Global,
    from: &Numbering,
    term: &Term,
    table: &mut Numbering,
    out: &mut Vec<Term>,
) -> Result<(), AllocError>
    requires { term.now.0 < length from.now }
    ensures grows { Grows table.old table.new }
    ensures adds { OnOk result ((m : ℕ) → Adds m table.old table.new out.old.items out.new.items
        (λ σ. term.now.1 * product σ (get_or from.now term.now.0 []))) }
{
    if term.coefficient() != 0 {
        let monomial = monomial::copy(alloc, from.variables(term.number()))?;
        multiplication::push_term(table, monomial, term.coefficient(), out)?;
    }
    Ok(())
}

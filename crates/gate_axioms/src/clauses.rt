// The polynomials of clauses.
#![tactic(auto, using(poly_terms::specs::Laws::stays, poly_terms::specs::Laws::extends_on, poly_terms::specs::Laws::extends_itself))]

ghost use Rattle.std.specs.Prelude.{◌≡◌, ◌*◌, ◌%◌, IfOk, not};
ghost use Rattle.clause_core.specs.Clause.{IsLiteral, signed};
ghost use Rattle.graph_core.specs.Graph.Assignments.{Assignment, bit, literal};
ghost use Rattle.poly_terms.specs.Tables.{IsOf, Extends, modulus_in, value_in};
ghost use Rattle.gate_axioms.specs.ClauseValues.{IsClausePoly, opposite};
ghost use Rattle.gate_axioms.specs.Form.{HasPolyValue};

use crate::axioms::one;
use crate::form::Form;
use clause_core::Clause;
use graph_core::{Lit, Memory};
use poly_terms::{Poly, Terms};
use std::alloc::Global;

/// The polynomial of a clause: the product, over its literals, of 1 minus the literal. It is 0 wherever the clause
/// holds.
pub fn clause_poly(alloc: Global, terms: &mut Terms, clause: &Clause) -> Result<Poly, Memory>
    ensures extends { Extends terms.old terms.new }
    ensures of { IfOk result (λ p. IsOf terms.new p) }
    ensures value { IfOk result (λ p. IsClausePoly terms.new p clause.now) }
{
    let mut product = literal_poly(alloc, terms, Lit(1))?;
    for lit in clause.lits() {
        product = with_literal(alloc, terms, &product, *lit)?;
    }
    Ok(product)
}

// A product and 1 minus one literal more.
fn with_literal(alloc: Global, terms: &mut Terms, product: &Poly, lit: i32) -> Result<Poly, Memory>
    requires product { IsOf terms.old product.now }
    requires literal { IsLiteral lit }
    ensures extends { Extends terms.old terms.new }
    ensures of { IfOk result (λ p. IsOf terms.new p) }
    ensures value { IfOk result (λ p. (σ : Assignment) → value_in terms.new p σ ≡
        (value_in terms.old product.now σ * bit (not (signed σ lit))) % modulus_in terms.old) }
{
    let factor = literal_poly(alloc, terms, opposite(lit))?;
    let poly = terms.mul(product, &factor)?;
    Ok(poly)
}

// The polynomial of a literal.
fn literal_poly(alloc: Global, terms: &mut Terms, lit: Lit) -> Result<Poly, Memory>
    ensures extends { Extends terms.old terms.new }
    ensures of { IfOk result (λ p. IsOf terms.new p) }
    ensures value { IfOk result (λ p. HasPolyValue terms.new p (λ σ. bit (literal σ lit))) }
{
    let mut form = Form::new(alloc);
    form.add_literal(one(terms), lit)?;
    let poly = form.poly_in(terms)?;
    Ok(poly)
}

// The literal that is 1 minus this one.
fn opposite(lit: i32) -> Lit
    requires { IsLiteral lit }
    ensures { result ≡ opposite lit }
{
    let variable = lit.unsigned_abs();
    if lit < 0 {
        Lit(2 * variable)
    } else {
        Lit(2 * variable + 1)
    }
}

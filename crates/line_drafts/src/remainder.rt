// What the last line leaves of the specification.
#![tactic(auto, using(poly_terms::specs::Laws::stays, poly_terms::specs::Laws::extends_on, poly_terms::specs::Laws::extends_itself))]

ghost use Rattle.std.specs.Prelude.{◌≡◌, ◌+◌, ◌%◌, true, map, IfOk, IfSome, IsTrue};
ghost use Rattle.std.specs.List.{All};
ghost use Rattle.graph_core.specs.Graph.Extended as graphs;
ghost use Rattle.graph_core.specs.Graph.Literals.{variable_of};
ghost use Rattle.frontier_core.specs.LastFrontier.{IsOverInputs};
ghost use Rattle.frontier_core.specs.Sets.{has};
ghost use Rattle.poly_terms.specs.Tables.{Extends, IsOf, modulus_in, monomials_in};
ghost use Rattle.line_drafts.specs.Drafts.{IsLeft};

use gate_axioms::spec_poly;
use graph_core::{Graph, Lit, Memory, Operands};
use mv_nums::Residue;
use poly_terms::{Poly, Terms};
use ripple_graft::Extended;
use std::alloc::Global;

/// The specification minus a polynomial, where that is over inputs alone.
pub(crate) fn left_of(
    alloc: Global,
    terms: &mut Terms,
    extended: &Extended<'_>,
    operands: &Operands,
    total: &Poly,
) -> Result<Option<Poly>, Memory>
    requires total { IsOf terms.old total.now }
    requires same_modulus { modulus_in terms.old ≡ graphs.modulus extended.now }
    ensures extends { Extends terms.old terms.new }
    ensures left { IfOk result (λ r. IfSome r (IsLeft extended.now operands.now terms.old terms.new total.now)) }
{
    let graph = extended.graph();
    let spec = spec_poly(alloc, terms, graph, operands)?;
    let less = minus_one(terms);
    let opposite = terms.multiple(total, less)?;
    let poly = terms.add(&spec, &opposite)?;
    if !is_over(terms, &poly, graph.input_literals()) {
        return Ok(None);
    }
    Ok(Some(poly))
}

// Whether each variable is one of these literals'.
fn is_over(terms: &Terms, poly: &Poly, lits: &[Lit]) -> bool
    requires { IsOf terms.now poly.now }
    ensures { IsTrue result → IsOverInputs lits.now (monomials_in terms.now poly.now) }
{
    for i in 0..terms.size(poly) {
        if !are_of(terms.vars(poly, i), lits) {
            return false;
        }
    }
    true
}

// Whether each of some variables is.
fn are_of(variables: &[u32], lits: &[Lit]) -> bool
    ensures { IsTrue result → All (λ v. has (map variable_of lits.now) v ≡ true) variables.now }
{
    for v in variables {
        if !is_of(*v, lits) {
            return false;
        }
    }
    true
}

// Whether a variable is.
fn is_of(v: u32, lits: &[Lit]) -> bool
    ensures { IsTrue result → has (map variable_of lits.now) v ≡ true }
{
    for lit in lits {
        if lit.var() == v {
            return true;
        }
    }
    false
}

// Minus 1, as a coefficient.
fn minus_one(terms: &Terms) -> u128
    ensures { (result + 1) % modulus_in terms.now ≡ 0 }
{
    Residue::new(terms.exponent(), 1).neg().value()
}

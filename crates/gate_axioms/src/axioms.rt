// The polynomials of a graph: axioms of its gates, differences of literals, columns, the specification.
#![tactic(auto, using(poly_terms::specs::Laws::stays, poly_terms::specs::Laws::extends_on, poly_terms::specs::Laws::extends_itself))]

ghost use Rattle.std.specs.Prelude.{◌≡◌, ◌+◌, ◌*◌, ◌%◌, ◌<◌, [], IfOk, Some, length, slice_get};
ghost use Rattle.frontier_core.specs.Columns.{column_value};
ghost use Rattle.frontier_core.specs.Substitution.{gate_value};
ghost use Rattle.graph_core.specs.declared.literal.Lit.{Lit};
ghost use Rattle.graph_core.specs.Graph.Extended.{modulus as modulus_of, without_cut};
ghost use Rattle.graph_core.specs.Graph.Assignments.{Assignment, bit, literal};
ghost use Rattle.algebra_core.specs.AlgebraLines.{gate_axiom};
ghost use Rattle.algebra_core.specs.Polynomials.{difference, value};
ghost use Rattle.poly_terms.specs.Tables.{IsOf, Extends, modulus_in, value_in};
ghost use Rattle.ripple_graft.specs.Extension.{new_outputs};
ghost use Rattle.gate_axioms.specs.Form.{HasFormValue, HasPolyValue};
ghost use Rattle.gate_axioms.specs.Axioms.{HasSpecificationValue, IsGateAxiom, IsLiteralDifference};

use crate::form::Form;
use graph_core::{Gate, Graph, Lit, Memory, Operands};
use mv_nums::Residue;
use poly_terms::{Poly, Terms};
use ripple_graft::Extended;
use std::alloc::Global;

// The variable, and the product of two negated literals.
const MAX_AXIOM_PARTS: usize = 5;

// The product of two negated literals.
const MAX_PRODUCT_PARTS: usize = 4;

/// The axiom of a gate v with the operands A and B, -v + A * B.
pub fn gate_poly(alloc: Global, terms: &mut Terms, gate: &Gate) -> Result<Poly, Memory>
    ensures extends { Extends terms.old terms.new }
    ensures of { IfOk result (λ p. IsOf terms.new p) }
    ensures value { IfOk result (λ p. IsGateAxiom terms.new p gate.now) }
{
    let room = Form::with_room(alloc, MAX_AXIOM_PARTS)?;
    let form = gate_form(room, terms, gate)?;
    let poly = form.poly_in(terms)?;
    Ok(poly)
}

/// The same as a form, which has no parts yet.
pub(crate) fn gate_form(mut form: Form, terms: &Terms, gate: &Gate) -> Result<Form, Memory>
    requires { form ≡ [] }
    ensures { IfOk result (λ form. HasFormValue (modulus_in terms.now) form
        (gate_axiom (modulus_in terms.now) gate.now).value) }
{
    // The gate's variable is most often new to the table, so it comes last: then nothing has to be sorted.
    form.add_product(one(terms), gate.left, gate.right)?;
    form.add_variable(minus_one(terms), gate.v)?;
    Ok(form)
}

/// A polynomial times the product of a gate's operands.
pub fn times_operands(
    alloc: Global,
    terms: &mut Terms,
    p: &Poly,
    gate: &Gate,
) -> Result<Poly, Memory>
    requires { IsOf terms.old p.now }
    ensures extends { Extends terms.old terms.new }
    ensures of { IfOk result (λ r. IsOf terms.new r) }
    ensures value { IfOk result (λ r. (σ : Assignment) → value_in terms.new r σ ≡
        (gate_value gate.now σ * value_in terms.old p.now σ) % modulus_in terms.old) }
{
    let mut form = Form::with_room(alloc, MAX_PRODUCT_PARTS)?;
    form.add_product(one(terms), gate.left, gate.right)?;
    let poly = form.times(terms, p)?;
    Ok(poly)
}

/// The difference of two literals, left - right: the axiom of a column with these outputs.
pub fn equal_poly(alloc: Global, terms: &mut Terms, left: Lit, right: Lit) -> Result<Poly, Memory>
    ensures extends { Extends terms.old terms.new }
    ensures of { IfOk result (λ p. IsOf terms.new p) }
    ensures value { IfOk result (λ p. IsLiteralDifference terms.new p left right) }
{
    let form = equal_form(Form::new(alloc), terms, left, right)?;
    let poly = form.poly_in(terms)?;
    Ok(poly)
}

/// The same as a form, which has no parts yet.
pub(crate) fn equal_form(
    mut form: Form,
    terms: &Terms,
    left: Lit,
    right: Lit,
) -> Result<Form, Memory>
    requires { form ≡ [] }
    ensures { IfOk result (λ form. HasFormValue (modulus_in terms.now) form
        (λ σ. difference (modulus_in terms.now) (bit (literal σ left)) (bit (literal σ right)))) }
{
    form.add_literal(one(terms), left)?;
    form.add_literal(minus_one(terms), right)?;
    Ok(form)
}

/// The specification of a multiplier: the sum of 2^k times output k, minus the product of the operands and the addend,
/// where there is one.
pub fn spec_poly(
    alloc: Global,
    terms: &mut Terms,
    graph: &Graph,
    operands: &Operands,
) -> Result<Poly, Memory>
    requires same_modulus { modulus_in terms.old ≡ modulus_of (without_cut graph.now) }
    ensures extends { Extends terms.old terms.new }
    ensures of { IfOk result (λ p. IsOf terms.new p) }
    ensures value { IfOk result (λ p.
        HasSpecificationValue terms.new p (without_cut graph.now) operands.now) }
{
    let one = one(terms);
    let minus = minus_one(terms);
    let mut outputs = Form::word(alloc, one, graph.output_literals())?;
    outputs.add_word(minus, operands.c_literals())?;
    let opposite = Form::operand(alloc, minus, operands.sign(), operands.a_literals())?;
    let b = Form::operand(alloc, one, operands.sign(), operands.b_literals())?;
    let poly = sum_with_product(terms, outputs, opposite, b)?;
    Ok(poly)
}

/// Column k of a multiplier: 2^k times (its output minus the sum of the partial products a_i b_j with i + j = k and
/// minus bit k of the addend, where there is one). Of signed operands of n bits a_i b_j counts -1 times where just
/// one of i and j is n - 1. Where the column is replaced, the output is its new one.
pub fn column_poly(
    alloc: Global,
    terms: &mut Terms,
    extended: &Extended<'_>,
    operands: &Operands,
    k: u32,
) -> Result<Poly, Memory>
    requires in_range { k < length extended.now.graph.outputs }
    requires same_modulus { modulus_in terms.old ≡ modulus_of extended.now }
    ensures extends { Extends terms.old terms.new }
    ensures of { IfOk result (λ p. IsOf terms.new p) }
    ensures value { IfOk result (λ p. (o : Lit) → slice_get (new_outputs extended.now) k ≡ Some o →
        (σ : Assignment) →
        value_in terms.new p σ ≡ column_value extended.now operands.now k o σ % modulus_in terms.old) }
{
    let weight = one(terms).shift(k);
    let output = extended.new_output(k);
    let opposite = weight.neg();
    let mut form = Form::new(alloc);
    form.add_literal(weight, output)?;
    form.add_column(
        opposite,
        operands.sign(),
        operands.a_literals(),
        operands.b_literals(),
        k as usize,
    )?;
    form.add_optional(opposite, operands.c(k))?;
    let poly = form.poly_in(terms)?;
    Ok(poly)
}

pub(crate) fn one(terms: &Terms) -> Residue
    ensures width { result.width ≡ terms.now.exponent }
    ensures value { result.value ≡ 1 }
{
    Residue::new(terms.exponent(), 1)
}

// a form plus the product of two
fn sum_with_product(terms: &mut Terms, sum: Form, left: Form, right: Form) -> Result<Poly, Memory>
    ensures extends { Extends terms.old terms.new }
    ensures of { IfOk result (λ p. IsOf terms.new p) }
    ensures value { IfOk result (λ p. HasPolyValue terms.new p
        (λ σ. value (modulus_in terms.old) sum σ
        + value (modulus_in terms.old) left σ * value (modulus_in terms.old) right σ)) }
{
    let sum = sum.poly_in(terms)?;
    let left = left.poly_in(terms)?;
    let right = right.poly_in(terms)?;
    let poly = terms.combine(&sum, &left, &right)?;
    Ok(poly)
}

fn minus_one(terms: &Terms) -> Residue
    ensures width { result.width ≡ terms.now.exponent }
    ensures value { (result.value + 1) % modulus_in terms.now ≡ 0 }
{
    one(terms).neg()
}

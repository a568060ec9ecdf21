// The part over a gate's axiom that is left where the gate is taken out of a polynomial.
#![tactic(auto, using(poly_terms::specs::Laws::stays, poly_terms::specs::Laws::extends_on, poly_terms::specs::Laws::extends_itself))]

ghost use Rattle.std.specs.Prelude.{false, ◌≡◌, ◌<◌, ◌≤◌, ◌*◌, ◌%◌, ◌^◌, IfOk, map};
ghost use Rattle.graph_core.specs.Graph.Assignments.{Assignment};
ghost use Rattle.poly_terms.specs.Tables.{Extends, IsOf, assigned, modulus_in, monomials_in, quotient_value, value_in};
ghost use Rattle.column_reducer.specs.Gathering.{IsGatePart};

use crate::pieces::opposite;
use gate_axioms::times_operands;
use graph_core::{Gate, Memory};
use poly_terms::{Poly, Terms};
use std::alloc::Global;

// So many columns share a line: a power of two that parts are divided by is a multiple of it.
const COLUMNS: u32 = 4;

/// A part over a gate's axiom, divided by 2^power: what the axiom is taken times, and the product, as what the gate's
/// operands and what its variable make of it.
#[derive(Debug, Drop)]
pub(crate) struct GatePart {
    pub(crate) power: u32,
    pub(crate) factor: Poly,
    /// the operands' product times the factor
    pub(crate) operands: Poly,
    /// minus the variable times the factor
    pub(crate) variable: Poly,
}

impl GatePart {
    /// The part that is left of terms which all have the gate's variable. They are divided first, and so keep their
    /// monomials: they are what the variable makes of the factor.
    pub(crate) fn of(
        alloc: Global,
        terms: &mut Terms,
        taken: Poly,
        gate: &Gate,
        most: u32,
    ) -> Result<GatePart, Memory>
        requires of { IsOf terms.old taken }
        requires variable { 0 < gate.now.v }
        requires power { most < 128 }
        requires all { (σ : Assignment) → value_in terms.old taken (assigned σ gate.now.v false) ≡ 0 }
        requires some { ((σ : Assignment) → value_in terms.old taken σ ≡ 0) → ⊥ }
        ensures extends { Extends terms.old terms.new }
        ensures low { IfOk result (λ p. p.power ≤ most) }
        ensures part { IfOk result
            (IsGatePart (modulus_in terms.old) terms.new gate.now (quotient_value terms.old taken gate.now.v)) }
    {
        let (power, variable) = divided(terms, taken, most)?;
        let by = terms.quotient(&variable, gate.v)?;
        let factor = opposite(terms, &by)?;
        let operands = times_operands(alloc, terms, &factor, gate)?;
        Ok(GatePart {
            power,
            factor,
            operands,
            variable,
        })
    }
}

// A polynomial divided by a power of two up to 2^most by which it can be.
fn divided(terms: &Terms, p: Poly, most: u32) -> Result<(u32, Poly), Memory>
    requires of { IsOf terms.now p }
    requires power { most < 128 }
    ensures low { IfOk result (λ r. r.0 ≤ most) }
    ensures of { IfOk result (λ r. IsOf terms.now r.1) }
    ensures value { IfOk result (λ r. (σ : Assignment) →
        (2 ^ r.0 * value_in terms.now r.1 σ) % modulus_in terms.now ≡ value_in terms.now p σ) }
    ensures variables { IfOk result (λ r.
        map (λ x. x.variables) (monomials_in terms.now r.1) ≡ map (λ x. x.variables) (monomials_in terms.now p)) }
{
    let power = common_power(terms, &p, most);
    match terms.divided(&p, power)? {
        Some(quotient) => Ok((power, quotient)),
        None => Ok((0, p)),
    }
}

// The greatest power up to this one by which a polynomial can be divided, as a multiple of `COLUMNS`, if it isn't this
// one.
fn common_power(terms: &Terms, p: &Poly, most: u32) -> u32
    requires { IsOf terms.now p.now }
    ensures { result ≤ most }
{
    let mut power = most;
    for i in 0..terms.size(p) {
        power = power.min(terms.coefficient(p, i).trailing_zeros());
    }
    if power == most {
        return most;
    }
    power / COLUMNS * COLUMNS
}

// A gate taken out of a polynomial.
#![tactic(auto, using(poly_terms::specs::Laws::stays, poly_terms::specs::Laws::extends_on, poly_terms::specs::Laws::extends_itself, poly_terms::specs::Laws::indexed_stays))]

ghost use Rattle.std.specs.Prelude.{◌≡◌, ◌<◌, ◌≤◌, ◌+◌, ◌*◌, ◌%◌, ◌^◌, ℕ, IfOk, IfSome, OnOk};
ghost use Rattle.graph_core.specs.Graph.Assignments.{Assignment};
ghost use Rattle.poly_terms.specs.Indexed.{IsIndexed};
ghost use Rattle.poly_terms.specs.Tables.{Extends, IsOf, modulus_in, value_in};
ghost use Rattle.column_reducer.specs.Gathering.{IsEliminated};

use crate::gate_part::GatePart;
use crate::pieces::minus_power;
use graph_core::{Gate, Memory};
use poly_terms::{Indexed, Terms};
use std::alloc::Global;

/// Puts the product of a gate's operands in place of its variable, and answers the part that is left of the terms with
/// the variable, if there were any. The part is divided by at most 2^most.
pub(crate) fn eliminate(
    alloc: Global,
    terms: &mut Terms,
    rest: &mut Indexed,
    gate: &Gate,
    most: u32,
) -> Result<Option<GatePart>, Memory>
    requires of { IsOf terms.old rest.old.sum }
    requires indexed { IsIndexed terms.old rest.old }
    requires variable { 0 < gate.now.v }
    requires power { most < terms.old.exponent }
    ensures extends { Extends terms.old terms.new }
    ensures eliminated { IfOk result (λ part. IsEliminated terms.old terms.new gate.now rest.old.sum rest.new part) }
    ensures low { IfOk result (λ part. IfSome part (λ p. p.power ≤ most)) }
{
    let _exponent = terms.exponent();
    let taken = rest.take(terms, gate.v)?;
    if terms.size(&taken) == 0 {
        return Ok(None);
    }
    let part = GatePart::of(alloc, terms, taken, gate, most)?;
    put_back(terms, rest, &part)?;
    Ok(Some(part))
}

// Adds the operands' product times what was taken: the part's, times minus its power of two.
fn put_back(terms: &Terms, rest: &mut Indexed, part: &GatePart) -> Result<(), Memory>
    requires of { IsOf terms.now rest.old.sum }
    requires indexed { IsIndexed terms.now rest.old }
    requires operands { IsOf terms.now part.now.operands }
    requires power { part.now.power < terms.now.exponent }
    ensures of { OnOk result (IsOf terms.now rest.new.sum) }
    ensures indexed { OnOk result (IsIndexed terms.now rest.new) }
    ensures value { OnOk result ((c : ℕ) × ((c + 2 ^ part.now.power) % modulus_in terms.now ≡ 0) ×
        ((σ : Assignment) → value_in terms.now rest.new.sum σ ≡ (value_in terms.now rest.old.sum σ
        + (c * value_in terms.now part.now.operands σ) % modulus_in terms.now) % modulus_in terms.now)) }
{
    let more = terms.multiple(&part.operands, minus_power(terms, part.power))?;
    rest.add(terms, &more)?;
    Ok(())
}

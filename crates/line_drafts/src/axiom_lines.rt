// The axioms, as lines that are known.
#![tactic(auto, using(poly_terms::specs::Laws::stays, poly_terms::specs::Laws::extends_on, poly_terms::specs::Laws::extends_itself))]

ghost use Rattle.std.specs.Prelude.{◌≡◌, ◌<◌, IfOk, length};
ghost use Rattle.std.specs.List.{All, Contains};
ghost use Rattle.graph_core.specs.Graph.Extended as graphs;
ghost use Rattle.poly_terms.specs.Tables.{Extends, modulus_in};
ghost use Rattle.line_drafts.specs.Drafts.{IsAxiomOf};

use crate::known::Known;
use gate_axioms::{equal_poly, gate_poly};
use graph_core::{Gate, Memory};
use poly_terms::Terms;
use ripple_graft::Extended;
use std::alloc::Global;

/// Those of the gates, in the order of their list, and then those of the replaced columns, from the lowest on.
pub(crate) fn axiom_lines(
    alloc: Global,
    terms: &mut Terms,
    extended: &Extended<'_>,
) -> Result<Vec<Known>, Memory>
    requires { modulus_in terms.old ≡ graphs.modulus extended.now }
    ensures extends { Extends terms.old terms.new }
    ensures known { IfOk result (λ ks. All (IsAxiomOf extended.now terms.new) ks.items) }
{
    let mut known = gate_lines(alloc, terms, extended)?;
    let _gates = extended.gates();
    for k in 0..extended.graph().outputs() {
        known = with_column(alloc, terms, extended, known, k)?;
    }
    Ok(known)
}

// Those of the gates.
fn gate_lines(
    alloc: Global,
    terms: &mut Terms,
    extended: &Extended<'_>,
) -> Result<Vec<Known>, Memory>
    requires { modulus_in terms.old ≡ graphs.modulus extended.now }
    ensures extends { Extends terms.old terms.new }
    ensures known { IfOk result (λ ks. All (IsAxiomOf extended.now terms.new) ks.items) }
{
    let mut known = Vec::new(alloc);
    for gate in extended.gates() {
        let line = gate_line(alloc, terms, extended, gate)?;
        known.push(line)?;
    }
    Ok(known)
}

// That of a gate.
fn gate_line(
    alloc: Global,
    terms: &mut Terms,
    extended: &Extended<'_>,
    gate: &Gate,
) -> Result<Known, Memory>
    requires same_modulus { modulus_in terms.old ≡ graphs.modulus extended.now }
    requires gate { Contains extended.now.gates gate.now }
    ensures extends { Extends terms.old terms.new }
    ensures known { IfOk result (IsAxiomOf extended.now terms.new) }
{
    let _gates = extended.gates();
    let poly = gate_poly(alloc, terms, gate)?;
    Ok(Known {
        id: u64::from(gate.v),
        poly,
    })
}

// That of a column after others, where it is replaced.
fn with_column(
    alloc: Global,
    terms: &mut Terms,
    extended: &Extended<'_>,
    known: Vec<Known>,
    k: u32,
) -> Result<Vec<Known>, Memory>
    requires same_modulus { modulus_in terms.old ≡ graphs.modulus extended.now }
    requires in_range { k < length extended.now.graph.outputs }
    requires known { All (IsAxiomOf extended.now terms.old) known.items }
    ensures extends { Extends terms.old terms.new }
    ensures known { IfOk result (λ ks. All (IsAxiomOf extended.now terms.new) ks.items) }
{
    if !extended.replaced(k) {
        return Ok(known);
    }
    let mut known = known;
    let max = extended.max();
    let old = extended.graph().output(k);
    let poly = equal_poly(alloc, terms, old, extended.new_output(k))?;
    let id = u64::from(max) + 1 + u64::from(k);
    known.push(Known { id, poly })?;
    Ok(known)
}

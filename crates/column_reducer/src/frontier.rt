// A step on a frontier's function.
#![tactic(auto, using(poly_terms::specs::Laws::stays, poly_terms::specs::Laws::extends_on, poly_terms::specs::Laws::extends_itself, poly_terms::specs::Laws::indexed_stays))]

ghost use Rattle.std.specs.Prelude.{◌≡◌, ◌≤◌, ◌<◌, ◌+◌, ℕ, None, IfSome, OnOk, length};
ghost use Rattle.std.specs.List.{Contains};
ghost use Rattle.algebra_core.specs.NormalForm.{HasSize};
ghost use Rattle.graph_core.specs.Graph.Extended as graphs;
ghost use Rattle.poly_terms.specs.Indexed.{IsIndexed};
ghost use Rattle.poly_terms.specs.Tables.{Extends, IsOf, modulus_in, value_in};
ghost use Rattle.frontier_core.specs.Plan.{CanEliminate, Taken};
ghost use Rattle.column_reducer.specs.Gathering.{IsAdded};

use crate::plan::Plan;
use gate_axioms::column_poly;
use graph_core::{Gate, Memory, Operands};
use poly_terms::{Indexed, Terms};
use ripple_graft::Extended;
use std::alloc::Global;

/// Adds a column.
pub(crate) fn add_column(
    alloc: Global,
    terms: &mut Terms,
    rest: &mut Indexed,
    extended: &Extended<'_>,
    operands: &Operands,
    k: u32,
) -> Result<(), Memory>
    requires in_range { k < length extended.now.graph.outputs }
    requires same_modulus { modulus_in terms.old ≡ graphs.modulus extended.now }
    requires of { IsOf terms.old rest.old.sum }
    requires indexed { IsIndexed terms.old rest.old }
    ensures extends { Extends terms.old terms.new }
    ensures added { OnOk result (IsAdded extended.now operands.now terms.old terms.new k rest.old.sum rest.new) }
{
    let column = column_poly(alloc, terms, extended, operands, k)?;
    rest.add(terms, &column)?;
    Ok(())
}

/// The gate that a step eliminates.
pub(crate) fn gate_to_eliminate(extended: &Extended<'_>, v: u32) -> Gate
    requires { (f : Taken) × CanEliminate extended.now f v }
    ensures gate { Contains extended.now.gates result }
    ensures variable { result.v ≡ v }
{
    let _gates = extended.gates();
    match extended.gate(v) {
        None => unreachable!(),
        Some(gate) => gate,
    }
}

/// The step that a frontier counts as and its size, where that is above the budget.
pub(crate) fn passed(
    terms: &Terms,
    plan: &Plan<'_>,
    rest: &Indexed,
    count: usize,
    budget: u64,
) -> Option<(u64, u64)>
    requires of { IsOf terms.now rest.now.sum }
    ensures step { IfSome result (λ r. plan.now.uncounted + r.0 ≡ count) }
    ensures above { IfSome result (λ r. budget < r.1) }
    ensures size { IfSome result (λ r. HasSize (modulus_in terms.now) (value_in terms.now rest.now.sum) r.1) }
    ensures within { result ≡ None → plan.now.uncounted ≤ count → (n : ℕ) →
        HasSize (modulus_in terms.now) (value_in terms.now rest.now.sum) n → n ≤ budget }
{
    if count < plan.uncounted() {
        return None;
    }
    let size = rest.size();
    if size <= budget {
        return None;
    }
    Some(((count - plan.uncounted()) as u64, size))
}

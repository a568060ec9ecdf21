// The gates in groups, and these in an order in which readers come first.
ghost use Rattle.std.specs.Prelude.{◌≡◌, ◌⊎◌, ◌∷◌, [], true, IfOk, IsTrue};
ghost use Rattle.std.specs.List.{All, Contains};
ghost use Rattle.graph_core.specs.Graph.Literals.{variable_of};
ghost use Rattle.frontier_core.specs.Sets.{has};
ghost use Rattle.slice_planner.specs.AdderLists.{AreAddersAndProducts};
ghost use Rattle.slice_planner.specs.GroupPlans.{AreInOrder};
ghost use Rattle.slice_planner.specs.Groups.{groups};
ghost use Rattle.slice_planner.specs.Arranged.{AreWithin, IsLater, ReadsGate, lists_in, variables};

use crate::arrangement::{Arrangement, Part};
use crate::listed::listed;
use graph_core::{Gate, Lit, Memory};
use ripple_graft::Extended;
use std::alloc::Global;

/// The groups of the list, where it is adders over gates that read no gate, and else single gates by their levels.
pub(crate) fn arranged(alloc: Global, extended: &Extended<'_>) -> Result<Arrangement, Memory>
    ensures gates { IfOk result (λ a. All (Contains extended.now.gates) a.gates) }
    ensures listed { IfOk result (λ a. AreAddersAndProducts extended.now.gates → AreInOrder extended.now.gates →
        lists_in a ≡ groups extended.now.gates) }
{
    let arrangement = listed(alloc, extended.gates())?;
    if are_adders(extended, &arrangement) && is_in_order(alloc, extended)? {
        Ok(arrangement)
    } else {
        by_levels(alloc, extended)
    }
}

/// The gates alone, by greater level, ties by greater variable.
pub(crate) fn by_levels(alloc: Global, extended: &Extended<'_>) -> Result<Arrangement, Memory>
    ensures { IfOk result (λ a. All (Contains extended.now.gates) a.gates) }
{
    let mut keys = keys_of(alloc, extended)?;
    keys.sort()?;
    let all = extended.gates();
    let mut gates = Vec::new(alloc);
    for (_level, _v, place) in keys.iter().rev() {
        if *place < all.len() {
            gates.push(all[*place])?;
        }
    }
    let parts = singles(alloc, &gates)?;
    Ok(Arrangement { gates, parts })
}

// Whether each gate that is alone in its group reads no gate.
fn are_adders(extended: &Extended<'_>, arrangement: &Arrangement) -> bool
    requires { All (Contains extended.now.gates) arrangement.now.gates }
    ensures { lists_in arrangement.now ≡ groups extended.now.gates →
        AreAddersAndProducts extended.now.gates → result ≡ true }
{
    for place in 0..arrangement.len() {
        if is_single_reader(extended, arrangement.group(place)) {
            return false;
        }
    }
    true
}

// Whether it is one gate, and that reads one.
fn is_single_reader(extended: &Extended<'_>, group: &[Gate]) -> bool
    ensures { IsTrue result → (x : Gate) × (group.now ≡ x ∷ []) × ReadsGate extended.now.gates x }
{
    match group {
        [gate] => is_gate(extended, gate.left) || is_gate(extended, gate.right),
        _ => false,
    }
}

// Whether each gate is listed after those that it reads.
fn is_in_order(alloc: Global, extended: &Extended<'_>) -> Result<bool, Memory>
    ensures { IfOk result (λ r. AreInOrder extended.now.gates → r ≡ true) }
{
    let mut listed = vec![in alloc; false; extended.max() as usize + 1]?;
    for gate in extended.gates() {
        if reads_later(extended, *gate, &listed) {
            return Ok(false);
        }
        listed[gate.v as usize] = true;
    }
    Ok(true)
}

// Whether a gate reads one that isn't listed yet.
fn reads_later(extended: &Extended<'_>, gate: Gate, listed: &[bool]) -> bool
    ensures { IsTrue result → IsLater extended.now listed.now gate.left ⊎ IsLater extended.now listed.now gate.right }
{
    is_later(extended, gate.left, listed) || is_later(extended, gate.right, listed)
}

// Whether a literal is a gate's that isn't listed yet.
fn is_later(extended: &Extended<'_>, lit: Lit, listed: &[bool]) -> bool
    ensures { IsTrue result → IsLater extended.now listed.now lit }
{
    let v = lit.var() as usize;
    is_gate(extended, lit) && v < listed.len() && !listed[v]
}

// Whether a literal is a gate's.
fn is_gate(extended: &Extended<'_>, lit: Lit) -> bool
    ensures { IsTrue result → has (variables extended.now.gates) (variable_of lit) ≡ true }
{
    lit.var() <= extended.max() && extended.gate(lit.var()).is_some()
}

// Each gate alone.
fn singles(alloc: Global, gates: &[Gate]) -> Result<Vec<Part>, Memory>
    ensures { IfOk result (λ parts. AreWithin gates.now parts.items) }
{
    let mut parts = Vec::new(alloc);
    for start in 0..gates.len() {
        parts.push(Part {
            start,
            end: start + 1,
        })?;
    }
    Ok(parts)
}

// The level, the variable and the place of each gate.
fn keys_of(alloc: Global, extended: &Extended<'_>) -> Result<Vec<(u32, u32, usize)>, Memory> {
    let graph = extended.graph();
    let mut levels = vec![in alloc; 0u32; extended.max() as usize + 1]?;
    let mut keys = Vec::new(alloc);
    for (place, gate) in extended.gates().iter().enumerate() {
        let level = if gate.v <= graph.max() {
            graph.level(gate.v)
        } else {
            // the added gates are listed after those that they read
            let (left, right) = (
                levels[gate.left.var() as usize],
                levels[gate.right.var() as usize],
            );
            left.max(right).saturating_add(1)
        };
        levels[gate.v as usize] = level;
        keys.push((level, gate.v, place))?;
    }
    Ok(keys)
}

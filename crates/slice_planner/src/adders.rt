// Full adders by the shapes of their gates, wherever these stand in the list.
use crate::grouping::gate_of;
use crate::shapes::{is_full, is_half};
use graph_core::{Gate, Lit, Memory};
use ripple_graft::Extended;
use std::alloc::Global;

/// The variables of each full adder's gates, readers first, and then those of the gates of none, each alone.
pub(crate) fn adders_and_gates(
    alloc: Global,
    extended: &Extended<'_>,
) -> Result<Vec<Vec<u32>>, Memory> {
    let sums = sums_by_halves(alloc, extended)?;
    let mut taken = vec![in alloc; false; extended.max() as usize + 1]?;
    let mut groups = Vec::new(alloc);
    for gate in extended.gates() {
        if let Some(adder) = adder_of(extended, &sums, *gate) {
            push_free(alloc, &mut groups, &mut taken, &adder)?;
        }
    }
    for gate in extended.gates() {
        push_free(alloc, &mut groups, &mut taken, &[gate.v])?;
    }
    Ok(groups)
}

/// The variable of each gate alone.
pub(crate) fn gates_alone(alloc: Global, extended: &Extended<'_>) -> Result<Vec<Vec<u32>>, Memory> {
    let mut groups = Vec::new(alloc);
    for gate in extended.gates() {
        groups.push(vec![in alloc; gate.v; 1]?)?;
    }
    Ok(groups)
}

// One more group, if no other has any of its gates.
fn push_free(
    alloc: Global,
    groups: &mut Vec<Vec<u32>>,
    taken: &mut [bool],
    members: &[u32],
) -> Result<(), Memory> {
    if any_taken(taken, members) {
        return Ok(());
    }
    for v in members {
        if let Some(place) = taken.get_mut(*v as usize) {
            *place = true;
        }
    }
    let mut group = Vec::new(alloc);
    group.extend_from_slice(members)?;
    groups.push(group)?;
    Ok(())
}

// Whether some group has one of these gates.
fn any_taken(taken: &[bool], members: &[u32]) -> bool {
    for v in members {
        if taken.get(*v as usize) == Some(&true) {
            return true;
        }
    }
    false
}

// The full adder whose carry is a gate's negation.
fn adder_of(extended: &Extended<'_>, sums: &[u32], carry: Gate) -> Option<[u32; 7]> {
    let (first, second) = gates_below(extended, carry)?;
    match adder_over(extended, sums, first, second, carry) {
        Some(adder) => Some(adder),
        None => adder_over(extended, sums, second, first, carry),
    }
}

// The one whose lower carry is that of u, and its upper one that of e.
fn adder_over(
    extended: &Extended<'_>,
    sums: &[u32],
    u: Gate,
    e: Gate,
    h: Gate,
) -> Option<[u32; 7]> {
    let (t, w) = sum_and_other(extended, sums, u)?;
    let (s, f) = sum_and_other(extended, sums, e)?;
    if is_full((u, w, t), (e, f, s), h) {
        Some([h.v, s.v, f.v, e.v, t.v, w.v, u.v])
    } else {
        None
    }
}

// The sum whose half a gate is, and the other half.
fn sum_and_other(extended: &Extended<'_>, sums: &[u32], half: Gate) -> Option<(Gate, Gate)> {
    let sum = gate_of(extended, *sums.get(half.v as usize)?)?;
    let (first, second) = gates_below(extended, sum)?;
    let other = if first.v == half.v { second } else { first };
    Some((sum, other))
}

// By variable: a sum that it is half of, 0 where there is none.
fn sums_by_halves(alloc: Global, extended: &Extended<'_>) -> Result<Vec<u32>, Memory> {
    let mut sums = vec![in alloc; 0u32; extended.max() as usize + 1]?;
    for gate in extended.gates() {
        if let Some((u, w)) = gates_below(extended, *gate) {
            if is_half(u, w, *gate) {
                enter(&mut sums, u.v, gate.v);
                enter(&mut sums, w.v, gate.v);
            }
        }
    }
    Ok(sums)
}

fn enter(sums: &mut [u32], half: u32, sum: u32) {
    if let Some(place) = sums.get_mut(half as usize) {
        *place = sum;
    }
}

// The gates whose negations both operands of a gate are.
fn gates_below(extended: &Extended<'_>, gate: Gate) -> Option<(Gate, Gate)> {
    let left = gate_below(extended, gate.left)?;
    let right = gate_below(extended, gate.right)?;
    Some((left, right))
}

// The gate whose negation a literal is.
fn gate_below(extended: &Extended<'_>, lit: Lit) -> Option<Gate> {
    if lit.negated() {
        gate_of(extended, lit.var())
    } else {
        None
    }
}

// The order in which gates are shown equal to models.
use crate::swept::Swept;
use crate::twins::Twins;
use graph_core::{Gate, Memory};
use std::alloc::Global;

// When a gate's turn comes: the greatest variable of a model that it waits for, and what comes first of those that wait
// for the same one.
type Turn = (u32, usize);

/// Gates by their levels and places. Where models read other gates they come as they are listed: each other gate after its
/// operands and after the model with its values, and before it the models that are to be shown equal to that one.
pub(crate) fn in_turn(
    alloc: Global,
    swept: &Swept<'_>,
    order: &[(u32, usize)],
    twins: &Twins,
) -> Result<Vec<(u32, usize)>, Memory> {
    let mut steps = Vec::with_capacity(alloc, order.len())?;
    steps.extend_from_slice(order)?;
    if twins.crosses() {
        let mut turns = turns_of(alloc, swept, order, twins)?;
        turns.sort_unstable();
        steps.clear();
        for (turn, place) in turns {
            steps.push((turn.0, place))?;
        }
    }
    Ok(steps)
}

// The turn of each gate, and its place.
fn turns_of(
    alloc: Global,
    swept: &Swept<'_>,
    order: &[(u32, usize)],
    twins: &Twins,
) -> Result<Vec<(Turn, usize)>, Memory> {
    let mut awaited = vec![in alloc; 0u32; swept.max as usize + 1]?;
    let mut turns = Vec::with_capacity(alloc, order.len())?;
    for (number, step) in order.iter().enumerate() {
        if let Some(gate) = swept.gates.get(step.1) {
            let model = awaited_by(swept, gate, twins, &awaited);
            if let Some(own) = awaited.get_mut(gate.v as usize) {
                *own = model;
            }
            let rank = if swept.models.has(gate) {
                step.1
            } else {
                swept.gates.len().wrapping_add(number)
            };
            turns.push(((model, rank), step.1))?;
        }
    }
    Ok(turns)
}

// The variable of the model that a gate waits for, where those that its operands wait for are told by variable.
fn awaited_by(swept: &Swept<'_>, gate: &Gate, twins: &Twins, awaited: &[u32]) -> u32 {
    let below = awaited_at(awaited, gate.left.var()).max(awaited_at(awaited, gate.right.var()));
    if swept.models.has(gate) {
        return match twins.of_stone(gate) {
            Some(lit) => below.max(lit.var()),
            None => gate.v,
        };
    }
    if twins.is_constant(gate) {
        return below;
    }
    match twins.awaited(gate) {
        Some(model) => below.max(model),
        None => below,
    }
}

fn awaited_at(awaited: &[u32], variable: u32) -> u32 {
    match awaited.get(variable as usize) {
        Some(model) => *model,
        None => 0,
    }
}

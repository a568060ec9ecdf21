// Gates from the inputs upward.
use graph_core::{Gate, Graph, Lit, Memory};
use ripple_graft::Extended;
use std::alloc::Global;

/// The level of each gate, as it is listed, and its place, rising: each gate is after those that its operands are of.
pub(crate) fn by_level(alloc: Global, levels: &[u32]) -> Result<Vec<(u32, usize)>, Memory> {
    let mut order = Vec::with_capacity(alloc, levels.len())?;
    for (place, level) in levels.iter().enumerate() {
        order.push((*level, place))?;
    }
    order.sort_unstable();
    Ok(order)
}

/// Appends the level of each gate of a graph. No answer depends on it.
pub fn push_levels(levels: &mut Vec<u32>, graph: &Graph) -> Result<(), Memory> {
    for gate in graph.gates() {
        levels.push(level_of(graph, gate))?;
    }
    Ok(())
}

fn level_of(graph: &Graph, gate: &Gate) -> u32 {
    if gate.v <= graph.max() {
        graph.level(gate.v)
    } else {
        0
    }
}

/// The level of each gate of an extended graph: those of the graph, and then those of the gates beside it, each of
/// which reads earlier ones.
pub(crate) fn levels_beside(alloc: Global, extended: &Extended<'_>) -> Result<Vec<u32>, Memory> {
    let graph = extended.graph();
    let gates = extended.gates();
    let mut levels = Vec::with_capacity(alloc, gates.len())?;
    push_levels(&mut levels, graph)?;
    for place in graph.gates().len()..gates.len() {
        let gate = gates[place];
        let left = level_beside(graph, &levels, gate.left);
        let right = level_beside(graph, &levels, gate.right);
        levels.push(left.max(right).saturating_add(1))?;
    }
    Ok(levels)
}

// The level of a literal, where those of the gates before have their levels.
fn level_beside(graph: &Graph, levels: &[u32], lit: Lit) -> u32 {
    let own = graph.max();
    let variable = lit.var();
    if variable <= own {
        return graph.level(variable);
    }
    let beside = (variable - own - 1) as usize;
    match levels.get(graph.gates().len().wrapping_add(beside)) {
        Some(level) => *level,
        None => 0,
    }
}

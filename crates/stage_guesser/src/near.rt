// The variables below a variable, the nearest first.
use graph_core::{Graph, Memory};
use std::alloc::Global;

/// A variable and those that are read below it, through at most so many gates, and none where there are many already.
pub(crate) fn near_below(
    alloc: Global,
    graph: &Graph,
    v: u32,
    depth: u32,
    many: usize,
) -> Result<Vec<u32>, Memory> {
    let mut near = vec![in alloc; v; 1]?;
    let mut start = 0;
    for _depth in 0..depth {
        let end = near.len();
        if end >= many {
            return Ok(near);
        }
        for place in start..end {
            enter(&mut near, graph, place)?;
        }
        start = end;
    }
    Ok(near)
}

// The variables that the gate at a place reads.
fn enter(near: &mut Vec<u32>, graph: &Graph, place: usize) -> Result<(), Memory> {
    let Some(v) = near.get(place).copied() else {
        return Ok(());
    };
    if v > graph.max() {
        return Ok(());
    }
    if let Some(gate) = graph.gate(v) {
        put(near, gate.left.var())?;
        put(near, gate.right.var())?;
    }
    Ok(())
}

// One variable more, where it is new.
fn put(near: &mut Vec<u32>, v: u32) -> Result<(), Memory> {
    if !near.contains(&v) {
        near.push(v)?;
    }
    Ok(())
}

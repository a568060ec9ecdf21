// The column after which each group of gates is due.
use crate::arrangement::Arrangement;
use graph_core::{Gate, Memory};
use ripple_graft::Extended;
use std::alloc::Global;

/// By column: the places of the groups that are due after it, in their order.
///
/// A group is due after the least column that has an output of it, or after which a reader of it is due.
pub(crate) fn due_groups(
    alloc: Global,
    extended: &Extended<'_>,
    arrangement: &Arrangement,
) -> Result<Vec<Vec<usize>>, Memory> {
    let mut columns = output_columns(alloc, extended)?;
    let mut due = no_places(alloc, extended.graph().outputs())?;
    for place in 0..arrangement.len() {
        let members = arrangement.group(place);
        let column = least_column(&columns, members);
        lower_operands(&mut columns, members, column);
        push_place(&mut due, column, place)?;
    }
    Ok(due)
}

// By variable: the least column whose output it is, and else the last one.
fn output_columns(alloc: Global, extended: &Extended<'_>) -> Result<Vec<u32>, Memory> {
    let outputs = extended.graph().outputs();
    let mut columns = vec![in alloc; outputs.saturating_sub(1); extended.max() as usize + 1]?;
    for k in 0..outputs {
        lower(&mut columns, extended.new_output(k).var(), k);
    }
    Ok(columns)
}

fn lower(columns: &mut [u32], v: u32, column: u32) {
    if let Some(least) = columns.get_mut(v as usize) {
        *least = column.min(*least);
    }
}

// The least column of some gates.
fn least_column(columns: &[u32], members: &[Gate]) -> u32 {
    let mut least = u32::MAX;
    for gate in members {
        if let Some(column) = columns.get(gate.v as usize) {
            least = least.min(*column);
        }
    }
    least
}

// What some gates read is due no higher than they are.
fn lower_operands(columns: &mut [u32], members: &[Gate], column: u32) {
    for gate in members {
        lower(columns, gate.left.var(), column);
        lower(columns, gate.right.var(), column);
    }
}

fn no_places(alloc: Global, columns: u32) -> Result<Vec<Vec<usize>>, Memory> {
    let mut due = Vec::new(alloc);
    for _ in 0..columns {
        due.push(Vec::new(alloc))?;
    }
    Ok(due)
}

// One more place at a column.
fn push_place(due: &mut Vec<Vec<usize>>, column: u32, place: usize) -> Result<(), Memory> {
    if let Some(places) = due.get_mut(column as usize) {
        places.push(place)?;
    }
    Ok(())
}

// Groups of variables as groups of gates.
ghost use Rattle.std.specs.Prelude.{◌≤◌, IfOk, IfSome, OnOk, length};
ghost use Rattle.std.specs.List.{All, Contains};

use crate::arrangement::{Arrangement, Part};
use graph_core::{Gate, Memory};
use ripple_graft::Extended;
use std::alloc::Global;

/// The groups at these places in this order, of each the gates of its variables.
pub(crate) fn grouped(
    alloc: Global,
    extended: &Extended<'_>,
    groups: &[Vec<u32>],
    places: &[usize],
) -> Result<Arrangement, Memory>
    ensures { IfOk result (λ a. All (Contains extended.now.gates) a.gates) }
{
    let mut gates = Vec::new(alloc);
    let mut parts = Vec::new(alloc);
    for place in places {
        let start = gates.len();
        push_group(&mut gates, extended, groups, *place)?;
        let end = gates.len();
        parts.push(Part { start, end })?;
    }
    Ok(Arrangement { gates, parts })
}

/// The gate of a variable, if it is one's.
pub(crate) fn gate_of(extended: &Extended<'_>, v: u32) -> Option<Gate>
    ensures { IfSome result (Contains extended.now.gates) }
{
    if v <= extended.max() {
        extended.gate(v)
    } else {
        None
    }
}

// The gates of the group at a place after others, if there is one.
fn push_group(
    gates: &mut Vec<Gate>,
    extended: &Extended<'_>,
    groups: &[Vec<u32>],
    place: usize,
) -> Result<(), Memory>
    requires { All (Contains extended.now.gates) gates.old.items }
    ensures gates { OnOk result (All (Contains extended.now.gates) gates.new.items) }
    ensures longer { OnOk result (length gates.old.items ≤ length gates.new.items) }
{
    match groups.get(place) {
        Some(group) => push_gates(gates, extended, group),
        None => Ok(()),
    }
}

// The gates of some variables after others.
fn push_gates(gates: &mut Vec<Gate>, extended: &Extended<'_>, group: &[u32]) -> Result<(), Memory>
    requires { All (Contains extended.now.gates) gates.old.items }
    ensures gates { OnOk result (All (Contains extended.now.gates) gates.new.items) }
    ensures longer { OnOk result (length gates.old.items ≤ length gates.new.items) }
{
    for v in group {
        push_gate(gates, extended, *v)?;
    }
    Ok(())
}

// The gate of a variable after others, if it is one's.
fn push_gate(gates: &mut Vec<Gate>, extended: &Extended<'_>, v: u32) -> Result<(), Memory>
    requires { All (Contains extended.now.gates) gates.old.items }
    ensures gates { OnOk result (All (Contains extended.now.gates) gates.new.items) }
    ensures longer { OnOk result (length gates.old.items ≤ length gates.new.items) }
{
    if let Some(gate) = gate_of(extended, v) {
        gates.push(gate)?;
        return Ok(());
    }
    Ok(())
}

// The list of gates cut into groups from its end on.
ghost use Rattle.std.specs.Prelude.{◌≡◌, ◌<◌, ◌≤◌, length, map, reverse, true, IfOk};
ghost use Rattle.slice_planner.specs.Groups.{ends_full, ends_half, group_size, groups, groups_of};
ghost use Rattle.slice_planner.specs.Arranged.{AreWithin, lists_in, pieces, variables};

use crate::arrangement::{Arrangement, Part};
use crate::shapes::{is_full, is_half};
use graph_core::{Gate, Memory};
use std::alloc::Global;

/// Full adders, half adders and single gates from the end of the list on, each with its last gate first.
pub(crate) fn listed(alloc: Global, gates: &[Gate]) -> Result<Arrangement, Memory>
    ensures gates { IfOk result (λ a. a.gates ≡ reverse gates.now) }
    ensures groups { IfOk result (λ a. lists_in a ≡ groups gates.now) }
{
    let gates = reversed(alloc, gates)?;
    let parts = cut(alloc, &gates)?;
    Ok(Arrangement { gates, parts })
}

// The list with its last gate first.
fn reversed(alloc: Global, gates: &[Gate]) -> Result<Vec<Gate>, Memory>
    ensures { IfOk result (λ r. r.items ≡ reverse gates.now) }
{
    let mut reversed = Vec::new(alloc);
    reversed.extend_from_slice(gates)?;
    reversed.reverse();
    Ok(reversed)
}

// The groups of a list with its last gate first.
fn cut(alloc: Global, gates: &[Gate]) -> Result<Vec<Part>, Memory>
    ensures within { IfOk result (λ parts. AreWithin gates.now parts.items) }
    ensures groups { IfOk result (λ parts.
        map variables (pieces gates.now parts.items) ≡ groups_of (length gates.now) gates.now) }
{
    let mut parts = Vec::new(alloc);
    let mut start = 0;
    while start < gates.len() {
        let end = start + first_size(&gates[start..]);
        parts.push(Part { start, end })?;
        start = end;
    }
    Ok(parts)
}

// How many gates the first group has.
fn first_size(gates: &[Gate]) -> usize
    requires { 0 < length gates.now }
    ensures size { result ≡ group_size gates.now }
    ensures some { 0 < result }
    ensures within { result ≤ length gates.now }
{
    if begins_full(gates) {
        7
    } else if begins_half(gates) {
        3
    } else {
        1
    }
}

// Whether the first seven are a full adder.
fn begins_full(gates: &[Gate]) -> bool
    ensures value { result ≡ ends_full gates.now }
    ensures long { result ≡ true → 7 ≤ length gates.now }
{
    match gates {
        [h, s, f, e, t, w, u, ..] => is_full((*u, *w, *t), (*e, *f, *s), *h),
        _ => false,
    }
}

// Whether the first three are a half adder.
fn begins_half(gates: &[Gate]) -> bool
    ensures value { result ≡ ends_half gates.now }
    ensures long { result ≡ true → 3 ≤ length gates.now }
{
    match gates {
        [t, w, u, ..] => is_half(*u, *w, *t),
        _ => false,
    }
}

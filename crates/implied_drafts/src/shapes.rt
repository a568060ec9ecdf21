// Gates that are products of propagates: of the tops of exclusive ors.
use crate::facts::Facts;
use graph_core::{Gate, Lit, Memory};
use std::alloc::Global;

// A product of fewer is taken as any other gate, unless such a one stands above it.
const WIDE: u32 = 24;

/// By variable: whether its gate is a product of many tops of exclusive ors, or one that such a product reads.
pub(crate) fn wide_products(
    alloc: Global,
    facts: &Facts<'_>,
    gates: &[Gate],
    max: u32,
) -> Result<Vec<bool>, Memory> {
    let room = max as usize + 1;
    let mut rising = Vec::new(alloc);
    rising.extend_from_slice(gates)?;
    rising.sort_unstable_by_key(|gate| (facts.level(gate.v), gate.v));
    let mut widths = vec![in alloc; 0u32; room]?;
    for gate in rising.iter() {
        let width = width_of(facts, &widths, *gate);
        if let Some(place) = widths.get_mut(gate.v as usize) {
            *place = width;
        }
    }
    let mut wide = vec![in alloc; false; room]?;
    for gate in rising.iter().rev() {
        spread(&widths, &mut wide, *gate);
    }
    Ok(wide)
}

// How many tops a gate is the product of, 0 if it is none. No other gate reads both operands: that of an adder does.
fn width_of(facts: &Facts<'_>, widths: &[u32], gate: Gate) -> u32 {
    if gate.left.var() == gate.right.var() {
        return 0;
    }
    let left = width_below(facts, widths, gate.left);
    let right = width_below(facts, widths, gate.right);
    if left > 0 && right > 0 && facts.is_alone(gate) {
        left.saturating_add(right)
    } else {
        0
    }
}

// How many tops an operand is the product of: one where it is a top itself, 0 where it is no product.
fn width_below(facts: &Facts<'_>, widths: &[u32], lit: Lit) -> u32 {
    if lit.negated() {
        return 0;
    }
    let width = at(widths, lit.var());
    if width == 0 && is_top(facts, lit.var()) {
        1
    } else {
        width
    }
}

// A wide product's operands count as it does.
fn spread(widths: &[u32], wide: &mut [bool], gate: Gate) {
    if at(widths, gate.v) >= WIDE {
        mark(wide, gate.v);
    }
    if wide.get(gate.v as usize) == Some(&true) {
        for v in [gate.left.var(), gate.right.var()] {
            if at(widths, v) > 0 {
                mark(wide, v);
            }
        }
    }
}

// Whether a variable's gate is the AND of the negations of two gates, the AND of two literals and that of their
// negations.
fn is_top(facts: &Facts<'_>, v: u32) -> bool {
    let Some(gate) = facts.gate(v) else {
        return false;
    };
    match (below(facts, gate.left), below(facts, gate.right)) {
        (Some(p), Some(q)) => {
            let (x, y) = (p.left.not(), p.right.not());
            (q.left.0 == x.0 && q.right.0 == y.0) || (q.left.0 == y.0 && q.right.0 == x.0)
        }
        _ => false,
    }
}

// The gate whose negation a literal is.
fn below(facts: &Facts<'_>, lit: Lit) -> Option<Gate> {
    if lit.negated() {
        facts.gate(lit.var())
    } else {
        None
    }
}

fn at(widths: &[u32], v: u32) -> u32 {
    match widths.get(v as usize) {
        Some(width) => *width,
        None => 0,
    }
}

fn mark(wide: &mut [bool], v: u32) {
    if let Some(place) = wide.get_mut(v as usize) {
        *place = true;
    }
}

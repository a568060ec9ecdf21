// The pairs that a column may have.
use crate::near::near_below;
use crate::signature::Signature;
use crate::table::Table;
use graph_core::{Graph, Lit, Memory};
use std::alloc::Global;

// So many gates at most lie between a literal that is the sum of a pair and the pair's literals.
const DEPTH: u32 = 4;

// No further gate is looked into where there are so many.
const MANY: usize = 40;

/// A pair that a position may add, and the carry out of it.
#[derive(Clone, Copy, Debug)]
pub(crate) struct Choice {
    pub(crate) pair: (Lit, Lit),
    pub(crate) carry: Signature,
}

/// A column: its output, the carry into it, and the output of the next column, if there is one.
#[derive(Clone, Copy, Debug)]
pub(crate) struct Position {
    pub(crate) output: Lit,
    pub(crate) carry: Signature,
    pub(crate) next: Option<Lit>,
}

/// The pairs near an output whose sum with the carry it is, one for each carry out: the lowest. First come those after
/// which the next column's output is the sum of the carry and one literal, and of like ones those with a constant, or
/// without one where they are to come late. In the last column the lowest comes first: no carry out tells of them
/// there.
pub(crate) fn choices(
    alloc: Global,
    graph: &Graph,
    table: &Table,
    near: &[u32],
    position: &Position,
    late: bool,
) -> Result<Vec<Choice>, Memory> {
    let found = pairs_near(alloc, graph, table, near, position)?;
    let mut sorted = Vec::new(alloc);
    for rank in 0..4 {
        for choice in found.as_slice() {
            if rank_of(table, position, choice, late) == rank {
                sorted.push(*choice)?;
            }
        }
    }
    if position.next.is_none() {
        sorted.sort_unstable_by_key(|choice| height(graph, choice.pair));
    }
    Ok(sorted)
}

// How high a pair is: the levels, and the numbers.
fn height(graph: &Graph, pair: (Lit, Lit)) -> (u32, u32, u32, u32) {
    let x = level(graph, pair.0);
    let y = level(graph, pair.1);
    (x.max(y), x.min(y), pair.0.0, pair.1.0)
}

// When a choice comes.
fn rank_of(table: &Table, position: &Position, choice: &Choice, late: bool) -> u32 {
    let far = match position.next {
        Some(output) => {
            let sum = table.signature(output).xor(&choice.carry);
            table.find(sum.key(), &sum).is_none()
        }
        None => false,
    };
    let constant = choice.pair.0.var() == 0;
    2 * u32::from(far) + u32::from(constant && late)
}

// These pairs.
fn pairs_near(
    alloc: Global,
    graph: &Graph,
    table: &Table,
    near: &[u32],
    position: &Position,
) -> Result<Vec<Choice>, Memory> {
    let sum = table.signature(position.output).xor(&position.carry);
    let key = sum.key();
    let mut choices = Vec::new(alloc);
    for v in near {
        offer_with(&mut choices, graph, table, position, &sum, *v)?;
    }
    if let Some(lit) = table.find(key, &sum) {
        for v in near_below(alloc, graph, lit.var(), DEPTH, MANY)? {
            offer_with(&mut choices, graph, table, position, &sum, v)?;
        }
        offer(&mut choices, graph, table, position, (Lit(0), lit))?;
    }
    Ok(choices)
}

// The pairs with a sum of which a variable is one.
fn offer_with(
    choices: &mut Vec<Choice>,
    graph: &Graph,
    table: &Table,
    position: &Position,
    sum: &Signature,
    v: u32,
) -> Result<(), Memory> {
    let x = Lit(v.wrapping_mul(2));
    let other = table.signature(x).xor(sum);
    if let Some(y) = table.find(other.key(), &other) {
        if x.var() > 0 && y.var() > 0 && x.var() != y.var() {
            offer(choices, graph, table, position, (x, y))?;
            offer(choices, graph, table, position, (x.not(), y.not()))?;
        }
    }
    Ok(())
}

// One choice more, unless one with the same carry out is lower.
fn offer(
    choices: &mut Vec<Choice>,
    graph: &Graph,
    table: &Table,
    position: &Position,
    pair: (Lit, Lit),
) -> Result<(), Memory> {
    if is_circular(table, position, pair.0) || is_circular(table, position, pair.1) {
        return Ok(());
    }
    let x = table.signature(pair.0);
    let y = table.signature(pair.1);
    let carry = x.majority(&y, &position.carry);
    let choice = Choice {
        pair: in_order(pair),
        carry,
    };
    for place in 0..choices.len() {
        if let Some(known) = choices.get_mut(place) {
            if known.carry.is(&carry) {
                if rank(graph, choice.pair) < rank(graph, known.pair) {
                    *known = choice;
                }
                return Ok(());
            }
        }
    }
    choices.push(choice)?;
    Ok(())
}

// Whether a literal is the output or the carry itself.
fn is_circular(table: &Table, position: &Position, lit: Lit) -> bool {
    let class = table.class(lit);
    lit.var() > 0
        && (class == table.class(position.output) || class == table.class_of(position.carry.key()))
}

// The lesser literal first.
fn in_order(pair: (Lit, Lit)) -> (Lit, Lit) {
    if pair.0.0 <= pair.1.0 {
        pair
    } else {
        (pair.1, pair.0)
    }
}

// What makes a pair low: a constant, the levels, and the numbers.
fn rank(graph: &Graph, pair: (Lit, Lit)) -> (bool, (u32, u32, u32, u32)) {
    (pair.0.var() > 0, height(graph, pair))
}

fn level(graph: &Graph, lit: Lit) -> u32 {
    if lit.var() <= graph.max() {
        graph.level(lit.var())
    } else {
        0
    }
}

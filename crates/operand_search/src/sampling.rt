// Fixed numbers on which a graph may be seen to differ, and the least difference, looked for only where it is.
ghost use Rattle.std.specs.Prelude.{◌≡◌, ◌+◌, ◌≤◌, length, All, IfOk, IfSome};
ghost use Rattle.graph_core.specs.Graph.Operands.{AreInRange, AreOperandsOf, HasShapeFor, inputs_at, operand_literals};
ghost use Rattle.frontier_core.specs.LeastDifference.{IsLeastDifferenceAt};

use crate::comparison::first_wrong;
use crate::draws::Draws;
use crate::lanes::{LANES, has_bit};
use crate::search::least_within;
use graph_core::{Graph, Memory, Numbers, Operands};
use std::alloc::{AllocError, Global};

// How many times as many values of the inputs as there are lanes are looked at.
const ROUNDS: u32 = 8;

/// The least operands and addend on which the graph's value isn't what is claimed, where they have at most so many ones
/// and some of a few hundred fixed ones, the same in each call, already show a difference.
pub fn least_seen(
    alloc: Global,
    graph: &Graph,
    operands: &Operands,
    most_ones: u32,
) -> Result<Option<Numbers>, Memory>
    requires shape { HasShapeFor operands.now.claim.widths graph.now }
    requires operands { AreOperandsOf graph.now operands.now }
    ensures some { IfOk result (λ found. IfSome found (λ x.
        IsLeastDifferenceAt graph.now operands.now (inputs_at operands.now x))) }
    ensures range { IfOk result (λ found. IfSome found (AreInRange operands.now)) }
{
    match some_seen(alloc, graph, operands)? {
        Some(_) => least_within(alloc, graph, operands, most_ones),
        None => Ok(None),
    }
}

/// Operands and an addend on which the graph's value isn't what is claimed, if some of a few hundred fixed ones are
/// such.
pub fn some_seen(
    alloc: Global,
    graph: &Graph,
    operands: &Operands,
) -> Result<Option<Numbers>, Memory>
    requires shape { HasShapeFor operands.now.claim.widths graph.now }
    requires operands { AreOperandsOf graph.now operands.now }
    ensures range { IfOk result (λ found. IfSome found (AreInRange operands.now)) }
{
    let count = graph.inputs() as usize;
    let mut bits = vec![in alloc; false; count]?;
    let mut lanes = vec![in alloc; 0; count]?;
    let mut words = vec![in alloc; 0; graph.max() as usize + 1]?;
    seen_on_draws(alloc, graph, operands, &mut bits, &mut lanes, &mut words)
}

// The same, with room for the inputs' bits, for the inputs' words and for the variables'.
fn seen_on_draws(
    alloc: Global,
    graph: &Graph,
    operands: &Operands,
    bits: &mut [bool],
    lanes: &mut [u64],
    words: &mut [u64],
) -> Result<Option<Numbers>, Memory>
    requires shape { HasShapeFor operands.now.claim.widths graph.now }
    requires operands { AreOperandsOf graph.now operands.now }
    requires bits { length bits.old ≡ length (operand_literals operands.now) }
    requires lanes { length lanes.old ≡ length graph.now.inputs }
    requires as_many { length bits.old ≡ length lanes.old }
    requires words { length words.old ≡ graph.now.max + 1 }
    ensures range { IfOk result (λ found. IfSome found (AreInRange operands.now)) }
{
    let mut draws = Draws::new();
    for round in 0..ROUNDS {
        draw_into(&mut draws, round, lanes);
        let numbers = numbers_in(alloc, operands, bits, lanes)?;
        if let Some(j) = first_wrong(graph, operands, &numbers, lanes, words) {
            return Ok(Some(numbers[j]));
        }
    }
    Ok(None)
}

// Words of any values, of few ones and of few zeros, by turns.
fn draw_into(draws: &mut Draws, round: u32, lanes: &mut [u64])
    ensures { length lanes.new ≡ length lanes.old }
{
    for place in 0..lanes.len() {
        let first = draws.next();
        let second = draws.next();
        lanes[place] = match round % 4 {
            0 | 1 => first,
            2 => first & second,
            _ => first | second,
        };
    }
}

// The numbers of each lane.
fn numbers_in(
    alloc: Global,
    operands: &Operands,
    bits: &mut [bool],
    lanes: &[u64],
) -> Result<Vec<Numbers>, AllocError>
    requires bits { length bits.old ≡ length (operand_literals operands.now) }
    requires as_many { length bits.old ≡ length lanes.now }
    ensures size { length bits.new ≡ length bits.old }
    ensures at_most { IfOk result (λ numbers. length numbers.items ≤ 64) }
    ensures range { IfOk result (λ numbers. All (AreInRange operands.now) numbers.items) }
{
    let mut numbers = Vec::new(alloc);
    for lane in 0..LANES {
        for (place, &word) in lanes.iter().enumerate() {
            bits[place] = has_bit(word, lane);
        }
        numbers.push(operands.numbers_of(bits))?;
    }
    Ok(numbers)
}

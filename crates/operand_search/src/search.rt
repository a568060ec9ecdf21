// The search for the least numbers on which a graph's value isn't what is claimed.
ghost use Rattle.std.specs.Prelude.{◌≡◌, ◌+◌, ◌<◌, ◌≤◌, Bool, List, length, None, Ok, true, IfOk, IfSome};
ghost use Rattle.graph_core.specs.Graph.{IsDefinedOnce};
ghost use Rattle.graph_core.specs.Graph.Operands.{AreInRange, AreOperandsOf, HasShapeFor, inputs_at, operand_literals};
ghost use Rattle.frontier_core.specs.LeastDifference.{IsDifferenceAt, IsLeastDifferenceAt, ones_from};
ghost use Rattle.operand_search.specs.Enumeration.{left_over, ones};
ghost use Rattle.operand_search.specs.Lanes.{AreLanes};
ghost use Rattle.operand_search.specs.Runs.{IsRun, NoneBefore};

use crate::comparison::first_wrong;
use crate::enumeration::advance;
use crate::lanes::{LANES, set_lane};
use graph_core::{Graph, Memory, Numbers, Operands};
use std::alloc::{AllocError, Global};

/// The least operands and addend on which the graph's value isn't what is claimed, if they have at most so many ones.
pub fn least_within(
    alloc: Global,
    graph: &Graph,
    operands: &Operands,
    most_ones: u32,
) -> Result<Option<Numbers>, Memory>
    requires shape { HasShapeFor operands.now.claim.widths graph.now }
    requires operands { AreOperandsOf graph.now operands.now }
    ensures some { IfOk result (λ found. IfSome found (λ x.
        IsLeastDifferenceAt graph.now operands.now (inputs_at operands.now x))) }
    ensures range { IfOk result (λ found. IfSome found (AreInRange operands.now)) }
    ensures few { IfOk result (λ found. IfSome found (λ x.
        length (ones_from 0 (inputs_at operands.now x)) ≤ most_ones)) }
    ensures none { result ≡ Ok None → (bits : List Bool) →
        IsDifferenceAt graph.now operands.now bits → most_ones < length (ones_from 0 bits) }
{
    let count = graph.inputs() as usize;
    let mut zeros = vec![in alloc; false; count]?;
    let mut lanes = vec![in alloc; 0; count]?;
    let mut words = vec![in alloc; 0; graph.max() as usize + 1]?;
    least_from(
        alloc,
        graph,
        operands,
        most_ones as usize,
        &mut zeros,
        &mut lanes,
        &mut words,
    )
}

// The same, where no difference comes before these values of the inputs.
fn least_from(
    alloc: Global,
    graph: &Graph,
    operands: &Operands,
    most_ones: usize,
    inputs: &mut [bool],
    lanes: &mut [u64],
    words: &mut [u64],
) -> Result<Option<Numbers>, Memory>
    requires shape { HasShapeFor operands.now.claim.widths graph.now }
    requires operands { AreOperandsOf graph.now operands.now }
    requires once { IsDefinedOnce graph.now }
    requires size { length inputs.old ≡ length graph.now.inputs }
    requires few { ones inputs.old ≤ most_ones }
    requires clear { NoneBefore graph.now operands.now inputs.old }
    requires lanes { length lanes.old ≡ length graph.now.inputs }
    requires words { length words.old ≡ graph.now.max + 1 }
    ensures some { IfOk result (λ found. IfSome found (λ x.
        IsLeastDifferenceAt graph.now operands.now (inputs_at operands.now x))) }
    ensures range { IfOk result (λ found. IfSome found (AreInRange operands.now)) }
    ensures few { IfOk result (λ found. IfSome found (λ x.
        length (ones_from 0 (inputs_at operands.now x)) ≤ most_ones)) }
    ensures none { result ≡ Ok None → (bits : List Bool) →
        IsDifferenceAt graph.now operands.now bits → most_ones < length (ones_from 0 bits) }
{
    loop {
        let (numbers, goes_on) = next_numbers(alloc, operands, most_ones, inputs, lanes)?;
        if let Some(j) = first_wrong(graph, operands, &numbers, lanes, words) {
            return Ok(Some(numbers[j]));
        }
        if !goes_on {
            return Ok(None);
        }
    }
}

// The next numbers, up to as many as there are lanes, and whether others are left; each lane gets their inputs.
fn next_numbers(
    alloc: Global,
    operands: &Operands,
    most_ones: usize,
    inputs: &mut [bool],
    lanes: &mut [u64],
) -> Result<(Vec<Numbers>, bool), AllocError>
    requires size { length inputs.old ≡ length (operand_literals operands.now) }
    requires as_many { length lanes.old ≡ length inputs.old }
    requires few { ones inputs.old ≤ most_ones }
    ensures run { IfOk result (λ r.
        IsRun operands.now most_ones inputs.old r.0.items r.1 inputs.new) }
    ensures lanes { IfOk result (λ r.
        AreLanes operands.now r.0.items lanes.new) }
    ensures smaller { IfOk result (λ r. r.1 ≡ true → left_over inputs.new < left_over inputs.old) }
    ensures at_most { IfOk result (λ r. length r.0.items ≤ 64) }
    ensures few { IfOk result (λ r. r.1 ≡ true → ones inputs.new ≤ most_ones) }
{
    let mut numbers = Vec::new(alloc);
    for place in 0..LANES {
        set_lane(lanes, place, inputs);
        numbers.push(operands.numbers_of(inputs))?;
        if !advance(inputs, most_ones) {
            return Ok((numbers, false));
        }
    }
    Ok((numbers, true))
}

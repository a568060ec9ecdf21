// The first of some numbers on which a graph's value isn't what is claimed.
ghost use Rattle.std.specs.Prelude.{◌≡◌, ◌+◌, ◌<◌, ◌≤◌, length, None, IfSome, All};
ghost use Rattle.graph_core.specs.Graph.Operands.{AreOperandsOf, HasShapeFor};
ghost use Rattle.operand_search.specs.Lanes.{AreLanes};
ghost use Rattle.operand_search.specs.Runs.{IsFirstWrong, IsRightOn};

use crate::claimed::claimed_value;
use crate::simulation::{number_in, words_into};
use graph_core::{Graph, Numbers, Operands};

/// The place of the first numbers on which the graph's value isn't what is claimed, where each lane of the inputs'
/// words stands for those at its place.
pub(crate) fn first_wrong(
    graph: &Graph,
    operands: &Operands,
    numbers: &[Numbers],
    inputs: &[u64],
    words: &mut [u64],
) -> Option<usize>
    requires shape { HasShapeFor operands.now.claim.widths graph.now }
    requires operands { AreOperandsOf graph.now operands.now }
    requires at_most { length numbers.now ≤ 64 }
    requires as_many { length inputs.now ≡ length graph.now.inputs }
    requires room { length words.old ≡ graph.now.max + 1 }
    ensures within { IfSome result (λ j. j < length numbers.now) }
    ensures some { IfSome result (λ j. AreLanes operands.now numbers.now inputs.now →
        IsFirstWrong graph.now operands.now numbers.now j) }
    ensures none { result ≡ None → AreLanes operands.now numbers.now inputs.now →
        All (IsRightOn graph.now operands.now) numbers.now }
{
    // at most 64 of each operand, so at most 128 outputs
    let _a_width = operands.a_width();
    words_into(graph, inputs, words);
    let outputs = graph.output_literals();
    for (j, &x) in numbers.iter().enumerate() {
        if number_in(words, outputs, j) != claimed_value(operands, x, graph.outputs()) {
            return Some(j);
        }
    }
    None
}

// A walk down to an input, which shows that a pair doesn't cover a variable.
ghost use Rattle.std.specs.Prelude.{◌≤◌, [], ◌∷◌, IsTrue};
ghost use Rattle.adder_finder.specs.FinalStage.{IsCovered, variables_of};

use graph_core::{Graph, Lit};

/// Whether it is seen at once that a pair doesn't cover a variable: going from gate to first operand, an input is met
/// before the constant and the pair.
pub(crate) fn misses(graph: &Graph, pair: (Lit, Lit), v: u32) -> bool
    requires in_range { v ≤ graph.now.max }
    ensures { IsTrue result → ¬ (IsCovered graph.now.gates (variables_of (pair ∷ [])) v) }
{
    let (x, y) = (pair.0.var(), pair.1.var());
    let max = graph.max();
    let mut here = v;
    for _step in 0..max {
        if here == 0 || here == x || here == y {
            return false;
        }
        match graph.gate(here) {
            None => return true,
            Some(gate) => here = gate.left.var(),
        }
    }
    false
}

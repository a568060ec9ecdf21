// The order of monomials by which the least values of the inputs are found.
ghost use Rattle.std.specs.Prelude.{MatchBool};
ghost use Rattle.graph_core.specs.Graph.Operands.{inputs_in};
ghost use Rattle.frontier_core.specs.LeastDifference.{AreInputs, Precedes};
ghost use Rattle.witness_finder.specs.Positions.{IsMonomialOver, IsNoLater, positions};

use crate::ones::is_one;
use graph_core::Operands;

/// Whether the first monomial has fewer variables, or as many at lexicographically lesser positions among the inputs.
pub(crate) fn comes_before(first: &[u32], second: &[u32], operands: &Operands) -> bool
    requires inputs { AreInputs (inputs_in operands.now) }
    requires first { IsMonomialOver operands.now first.now }
    requires second { IsMonomialOver operands.now second.now }
    ensures { let one = positions operands.now first.now in let other = positions operands.now second.now in
        MatchBool result (Precedes one other) (IsNoLater other one) }
{
    if first.len() != second.len() {
        return first.len() < second.len();
    }
    for i in 0..operands.inputs() {
        let in_first = is_one(first, operands, i);
        if in_first != is_one(second, operands, i) {
            return in_first;
        }
    }
    false
}

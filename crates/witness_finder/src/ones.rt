// The values of the inputs at which just a monomial's variables are true.
ghost use Rattle.std.specs.Prelude.{◌≡◌, ◌<◌, length, slice_index_or, false};
ghost use Rattle.graph_core.specs.Graph.Operands.{AreInRange, inputs_at, inputs_in};
ghost use Rattle.frontier_core.specs.LeastDifference.{AreInputs};
ghost use Rattle.witness_finder.specs.Positions.{bits_at};

use graph_core::{MOST_INPUTS, Numbers, Operands};

/// The numbers at which the variables of a monomial are true and no others.
pub(crate) fn numbers_at(variables: &[u32], operands: &Operands) -> Numbers
    requires { AreInputs (inputs_in operands.now) }
    ensures inputs { inputs_at operands.now result ≡ bits_at operands.now variables.now }
    ensures range { AreInRange operands.now result }
{
    let mut values = [false; MOST_INPUTS];
    let count = operands.inputs();
    for i in 0..count {
        values[i as usize] = is_one(variables, operands, i);
    }
    operands.numbers_of(&values[..count as usize])
}

/// Whether the input at a position is a variable of the monomial.
pub(crate) fn is_one(variables: &[u32], operands: &Operands, i: u32) -> bool
    requires inputs { AreInputs (inputs_in operands.now) }
    requires in_range { i < length (inputs_in operands.now) }
    ensures { result ≡ slice_index_or (bits_at operands.now variables.now) i false }
{
    variables.contains(&operands.input(i).var())
}

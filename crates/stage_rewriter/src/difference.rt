// The operands and the addend that an evaluation has at the inputs.
ghost use Rattle.std.specs.Prelude.{◌≡◌, ◌<◌, ◌≤◌, length, map, IfOk};
ghost use Rattle.graph_core.specs.Graph.Assignments.{literal};
ghost use Rattle.graph_core.specs.Graph.Literals.{variable_of};
ghost use Rattle.graph_core.specs.Graph.Operands.{AreInRange, AreOperandsOf, HasShapeFor, inputs_at};
ghost use Rattle.cdcl_solver.specs.Solving.{assignment_of};

use graph_core::{Graph, Lit, Memory, Numbers, Operands};
use std::alloc::Global;

/// The operands and the addend that the values have at the inputs, that of variable v at place v - 1.
pub(crate) fn numbers_of(
    alloc: Global,
    graph: &Graph,
    operands: &Operands,
    values: &[bool],
) -> Result<Numbers, Memory>
    requires shape { HasShapeFor operands.now.claim.widths graph.now }
    requires operands { AreOperandsOf graph.now operands.now }
    requires all { graph.now.max ≤ length values.now }
    ensures inputs { IfOk result (λ x.
        map (literal (assignment_of values.now)) graph.now.inputs ≡ inputs_at operands.now x) }
    ensures range { IfOk result (AreInRange operands.now) }
{
    let mut inputs = Vec::new(alloc);
    for &lit in graph.input_literals() {
        inputs.push(value_of(values, lit))?;
    }
    Ok(operands.numbers_of(&inputs))
}

// the value of a literal that is no constant
fn value_of(values: &[bool], lit: Lit) -> bool
    requires some { 0 < variable_of lit }
    requires all { variable_of lit ≤ length values.now }
    ensures { result ≡ literal (assignment_of values.now) lit }
{
    values[lit.var() as usize - 1] != lit.negated()
}

// Placing gates beside an extended graph, and literals in place of its outputs.
ghost use Rattle.std.specs.Prelude.{◌≡◌, IfOk, length};
ghost use Rattle.ripple_graft.specs.Beside.{AreGates, AreOutputs, FitsBeside, HaveRoom, with_beside, with_gates, with_outputs};

use crate::Extended;
use crate::beside::Beside;
use graph_core::Lit;
use std::alloc::{AllocError, Global};

/// An extended graph with what stands beside it: the gates, and then the outputs, one after the other.
pub fn graft_beside<'a>(
    alloc: Global,
    extended: Extended<'a>,
    beside: &Beside,
) -> Result<Extended<'a>, AllocError>
    requires { FitsBeside extended beside.now }
    ensures { IfOk result (λ e. e ≡ with_beside extended.entry beside.now) }
{
    let longer = with_gates(alloc, extended, beside.gates.as_slice())?;
    with_outputs(alloc, longer, beside.outputs.as_slice())
}

// One gate after the other.
fn with_gates<'a>(
    alloc: Global,
    extended: Extended<'a>,
    gates: &[(Lit, Lit)],
) -> Result<Extended<'a>, AllocError>
    requires room { HaveRoom extended (length gates.now) }
    requires fit { AreGates extended gates.now }
    ensures { IfOk result (λ e. e ≡ with_gates extended.entry gates.now) }
{
    let mut longer = extended;
    for (left, right) in gates {
        longer = longer.with_gate(alloc, *left, *right)?;
    }
    Ok(longer)
}

// One output after the other.
fn with_outputs<'a>(
    alloc: Global,
    extended: Extended<'a>,
    outputs: &[(u32, Lit)],
) -> Result<Extended<'a>, AllocError>
    requires { AreOutputs extended outputs.now }
    ensures { IfOk result (λ e. e ≡ with_outputs extended.entry outputs.now) }
{
    let mut longer = extended;
    for (column, new) in outputs {
        longer = longer.with_output(alloc, *column, *new)?;
    }
    Ok(longer)
}

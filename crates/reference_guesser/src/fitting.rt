// Whether gates and outputs fit a graph.
ghost use Rattle.std.specs.Prelude.{◌≡◌, ◌+◌, ◌≤◌, ◌<◌, ◌↔◌, ◌++◌, ◌∷◌, [], IfOk, IfSome, IsTrue, OnOk, length};
ghost use Rattle.graph_core.specs.declared.bounds.TheConstants.{MOST_VARIABLES};
ghost use Rattle.graph_core.specs.Graph.Extended.{without_cut};
ghost use Rattle.ripple_graft.specs.Beside.{AreGates, AreOutputs, IsBeside, IsOutput, with_gate, with_gates, with_output, with_outputs};
ghost use Rattle.ripple_graft.specs.Grafts.{IsKnownPair};

use graph_core::{Graph, Lit, MOST_VARIABLES, Memory};
use ripple_graft::{Beside, Extended, Outputs, Pairs};
use std::alloc::Global;

/// Gates and outputs beside a graph, where they fit it.
pub(crate) fn if_fitting(
    alloc: Global,
    graph: &Graph,
    gates: &[(Lit, Lit)],
    outputs: &[(u32, Lit)],
) -> Result<Option<Beside>, Memory>
    ensures { IfOk result (λ beside. IfSome beside (IsBeside graph.now)) }
{
    if gates.len() > MOST_VARIABLES as usize {
        return Ok(None);
    }
    let Some((extended, gates)) = fitting_gates(alloc, graph, gates)? else {
        return Ok(None);
    };
    let Some(outputs) = fitting_outputs(alloc, extended, outputs)? else {
        return Ok(None);
    };
    Ok(Some(Beside {
        gates: Pairs::from_vec(gates),
        outputs: Outputs::from_vec(outputs),
    }))
}

// The gates, with the graph that they make.
fn fitting_gates<'a>(
    alloc: Global,
    graph: &'a Graph,
    gates: &[(Lit, Lit)],
) -> Result<Option<(Extended<'a>, Vec<(Lit, Lit)>)>, Memory>
    requires { length gates.now ≤ MOST_VARIABLES }
    ensures few { IfOk result (λ found. IfSome found (λ r. length r.1.items ≤ MOST_VARIABLES)) }
    ensures made { IfOk result (λ found. IfSome found (λ r. r.0 ≡ with_gates (without_cut graph.now) r.1.items)) }
    ensures fit { IfOk result (λ found. IfSome found (λ r. AreGates (without_cut graph.now) r.1.items)) }
{
    let mut extended = Extended::without_cut(graph);
    let mut fitting = Vec::new(alloc);
    for pair in gates {
        if !is_known_pair(&extended, *pair) {
            return Ok(None);
        }
        extended = append_gate(alloc, extended, &mut fitting, *pair)?;
    }
    Ok(Some((extended, fitting)))
}

fn is_known_pair(extended: &Extended<'_>, pair: (Lit, Lit)) -> bool
    ensures { IsTrue result ↔ IsKnownPair extended.now pair }
{
    extended.is_known(pair.0) && extended.is_known(pair.1)
}

// One gate more at the end, and the graph with it.
fn append_gate<'a>(
    alloc: Global,
    extended: Extended<'a>,
    gates: &mut Vec<(Lit, Lit)>,
    pair: (Lit, Lit),
) -> Result<Extended<'a>, Memory>
    requires known { IsKnownPair extended pair }
    requires room { extended.max < extended.graph.max + MOST_VARIABLES }
    ensures ok { IfOk result (λ e. e ≡ with_gate extended.entry pair) }
    ensures more { OnOk result (gates.new.items ≡ gates.old.items ++ pair ∷ []) }
{
    let next = extended.with_gate(alloc, pair.0, pair.1)?;
    gates.push(pair)?;
    Ok(next)
}

// The outputs.
fn fitting_outputs(
    alloc: Global,
    extended: Extended<'_>,
    outputs: &[(u32, Lit)],
) -> Result<Option<Vec<(u32, Lit)>>, Memory>
    ensures { IfOk result (λ found. IfSome found (λ all. AreOutputs extended.entry all.items)) }
{
    let mut extended = extended;
    let mut fitting = Vec::new(alloc);
    for output in outputs {
        if !is_output(&extended, *output) {
            return Ok(None);
        }
        extended = append_output(alloc, extended, &mut fitting, *output)?;
    }
    Ok(Some(fitting))
}

fn is_output(extended: &Extended<'_>, output: (u32, Lit)) -> bool
    ensures { IsTrue result ↔ IsOutput extended.now output }
{
    output.0 < extended.graph().outputs()
        && !extended.replaced(output.0)
        && extended.is_known(output.1)
}

// One output more at the end, and the graph with it.
fn append_output<'a>(
    alloc: Global,
    extended: Extended<'a>,
    outputs: &mut Vec<(u32, Lit)>,
    output: (u32, Lit),
) -> Result<Extended<'a>, Memory>
    requires { IsOutput extended output }
    ensures ok { IfOk result (λ e. e ≡ with_output extended.entry output) }
    ensures more { OnOk result (outputs.new.items ≡ outputs.old.items ++ output ∷ []) }
{
    let next = extended.with_output(alloc, output.0, output.1)?;
    outputs.push(output)?;
    Ok(next)
}

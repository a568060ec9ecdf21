// What is kept beside a graph, with a block, a gate or an output more.
ghost use Rattle.std.specs.Prelude.{◌≡◌, ◌<◌, IfOk, length, suc};
ghost use Rattle.graph_core.specs.Graph.{Aig};
ghost use Rattle.graph_core.specs.Graph.Extended.{without_cut};
ghost use Rattle.ripple_graft.specs.Beside.{with_gate, with_output};
ghost use Rattle.ripple_graft.specs.Blocks.{IsBlock, block, graft_block};
ghost use Rattle.ripple_graft.specs.Grafts.{IsGrafted, seen_in};

use crate::added::Added;
use crate::adder::adder_behind;
use crate::columns::{columns_behind, reach};
use crate::cut::Cut;
use graph_core::{Gate, Graph, Lit};
use std::alloc::{AllocError, Global};

// Nothing beside a graph but its own gates.
pub fn nothing_added(alloc: Global, graph: &Graph) -> Result<Added, AllocError>
    ensures { IfOk result (λ a. seen_in graph.now a ≡ without_cut graph.now) }
{
    let max = graph.max();
    let gates = Vec::from_slice(alloc, graph.gates())?;
    Ok(Added {
        max,
        gates,
        columns: Vec::new(alloc),
    })
}

// The block of a cut after what was added before: its adder, and the columns that it replaces.
pub fn with_block(
    alloc: Global,
    graph: &Graph,
    before: Added,
    cut: &Cut,
    carry: bool,
) -> Result<Added, AllocError>
    requires grafted { IsGrafted graph.now (seen_in graph.now before) }
    requires fits { IsBlock (seen_in graph.now before) (block cut.now carry) }
    ensures { IfOk result (λ a. seen_in graph.now a ≡
        graft_block (seen_in graph.now before) (block cut.now carry)) }
{
    let outputs = graph.output_literals();
    let pairs = cut.pairs.as_slice();
    let adder = adder_behind(alloc, before.max, before.gates, pairs)?;
    let reach = reach(pairs.len(), carry);
    let columns = columns_behind(before.columns, cut.lo, outputs, &adder.outputs[..reach])?;
    Ok(Added {
        max: adder.max,
        gates: adder.gates,
        columns,
    })
}

// One gate more, with the variable after the greatest.
pub fn with_gate(before: Added, gate: Gate) -> Result<Added, AllocError>
    requires { gate.v ≡ suc before.max }
    ensures { IfOk result (λ a. (g : Aig) →
        seen_in g a ≡ with_gate (seen_in g before) (gate.left, gate.right)) }
{
    let mut gates = before.gates;
    gates.push(gate)?;
    Ok(Added {
        max: gate.v,
        gates,
        columns: before.columns,
    })
}

// One output more that a literal takes the place of.
pub fn with_output(graph: &Graph, before: Added, column: u32, new: Lit) -> Result<Added, AllocError>
    requires { column < length graph.now.outputs }
    ensures { IfOk result (λ a. seen_in graph.now a ≡ with_output (seen_in graph.now before) (column, new)) }
{
    let columns = columns_behind(before.columns, column, graph.output_literals(), &[new])?;
    Ok(Added {
        max: before.max,
        gates: before.gates,
        columns,
    })
}

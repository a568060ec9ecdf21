// Two graphs as one list of gates.
ghost use Rattle.std.specs.Prelude.{◌≡◌, ◌<◌, ◌≤◌, ◌^◌, ◌↔◌, ◌++◌, map, IfOk, IsErrOf, IsTrue};
ghost use Rattle.same_core.specs.Merged.{AreOfOneShape, both, moved, moved_gate as gate_moved, moved_literal as literal_moved, pairs_of};
ghost use Rattle.same_core.specs.Places.{IsReadableIn};

use gate_sweeper::{Models, Swept, push_levels};
use graph_core::{Gate, Graph, Lit, Memory};
use std::alloc::Global;
use std::marker::Model;
use thiserror::Error;

/// Why two graphs aren't merged.
#[derive(Clone, Copy, Debug, PartialEq, Eq, Error)]
pub enum MergeFail {
    /// They don't have as many inputs, or not as many outputs.
    #[error("the shapes differ")]
    Shape,
    #[error("want of memory")]
    Memory,
}

impl From<Memory> for MergeFail {
    ghost use Rattle.std.specs.Prelude.{◌≡◌};
    ghost use Rattle.same_core.specs.declared.merged.MergeFail.TheVariants as fail;

    ghost from_gives = { λ _ e. e ≡ fail.Memory };

    fn from(_: Memory) -> Self {
        MergeFail::Memory
    }
}

/// The merged gates of two graphs: those of the first one, and then those of the second one, whose variables go up by
/// the first one's greatest and whose inputs are the first one's.
#[derive(Debug, Drop)]
pub struct Merged {
    /// The greatest variable of the first graph.
    first: u32,
    max: u32,
    gates: Vec<Gate>,
    /// The level of each gate in its graph.
    levels: Vec<u32>,
    pairs: Vec<(Lit, Lit)>,
}

impl Model for Merged {
    ghost use Rattle.same_core.specs.Merged.{Both};

    ghost Value = { Both };

    ghost view = { λ m. record { max = m.max; gates = m.gates.items; pairs = m.pairs.items } };
}

impl Merged {
    ghost use Rattle.std.specs.Prelude.{◌≡◌};

    /// The greatest variable.
    pub fn max(&self) -> u32
        ensures { result ≡ self.now.max }
    {
        self.max
    }

    pub fn gates(&self) -> &[Gate]
        ensures { result.now ≡ self.now.gates }
    {
        self.gates.as_slice()
    }

    /// Of each output that of the first graph and that of the second one.
    pub fn pairs(&self) -> &[(Lit, Lit)]
        ensures { result.now ≡ self.now.pairs }
    {
        self.pairs.as_slice()
    }

    /// What is swept: gates of the second graph may be shown equal to gates of the first one.
    pub(crate) fn swept(&self) -> Swept<'_>
        ensures { result.max ≡ self.now.max }
    {
        Swept {
            max: self.max,
            gates: self.gates.as_slice(),
            levels: self.levels.as_slice(),
            pairs: self.pairs.as_slice(),
            models: Models::UpTo(self.first),
        }
    }
}

/// Merges two graphs. `Shape` comes exactly where they haven't as many inputs or not as many outputs.
pub fn merge(alloc: Global, graph: &Graph, other: &Graph) -> Result<Merged, MergeFail>
    ensures merged { IfOk result (λ merged. merged ≡ both graph.now other.now) }
    ensures one_shape { IfOk result (λ _. AreOfOneShape graph.now other.now) }
    ensures shape { IsErrOf result MergeFail.Shape ↔ ¬ (AreOfOneShape graph.now other.now) }
{
    if !are_of_one_shape(graph, other) {
        return Err(MergeFail::Shape);
    }
    match merge_lists(alloc, graph, other) {
        Ok(merged) => Ok(merged),
        Err(_) => Err(MergeFail::Memory),
    }
}

fn are_of_one_shape(graph: &Graph, other: &Graph) -> bool
    ensures { IsTrue result ↔ AreOfOneShape graph.now other.now }
{
    graph.inputs() == other.inputs() && graph.outputs() == other.outputs()
}

fn merge_lists(alloc: Global, graph: &Graph, other: &Graph) -> Result<Merged, Memory>
    requires { AreOfOneShape graph.now other.now }
    ensures { IfOk result (λ merged. merged ≡ both graph.now other.now) }
{
    let max = graph.max() + other.max();
    let gates = merge_gates(alloc, graph, other)?;
    let pairs = merge_outputs(alloc, graph, other)?;
    let levels = merge_levels(alloc, graph, other)?;
    Ok(Merged {
        first: graph.max(),
        max,
        gates,
        levels,
        pairs,
    })
}

fn merge_levels(alloc: Global, graph: &Graph, other: &Graph) -> Result<Vec<u32>, Memory> {
    let mut levels = Vec::new(alloc);
    push_levels(&mut levels, graph)?;
    push_levels(&mut levels, other)?;
    Ok(levels)
}

fn merge_gates(alloc: Global, graph: &Graph, other: &Graph) -> Result<Vec<Gate>, Memory>
    requires { AreOfOneShape graph.now other.now }
    ensures { IfOk result (λ gates. gates.items ≡
        graph.now.gates ++ map (gate_moved graph.now other.now) other.now.gates) }
{
    let mut gates = Vec::from_slice(alloc, graph.gates())?;
    for gate in other.gates() {
        gates.push(moved_gate(graph, other, gate))?;
    }
    Ok(gates)
}

fn merge_outputs(alloc: Global, graph: &Graph, other: &Graph) -> Result<Vec<(Lit, Lit)>, Memory>
    requires { AreOfOneShape graph.now other.now }
    ensures { IfOk result (λ pairs. pairs.items ≡
        pairs_of graph.now.outputs (map (literal_moved graph.now other.now) other.now.outputs)) }
{
    let outputs = graph.output_literals();
    let others = other.output_literals();
    let mut pairs = Vec::new(alloc);
    for place in 0..outputs.len() {
        let moved = moved_literal(graph, other, others[place]);
        pairs.push((outputs[place], moved))?;
    }
    Ok(pairs)
}

// A gate of the second graph among the merged ones.
fn moved_gate(graph: &Graph, other: &Graph, gate: &Gate) -> Gate
    requires shape { AreOfOneShape graph.now other.now }
    requires own { gate.now.v < 2 ^ 31 }
    requires left { IsReadableIn other.now gate.now.left }
    requires right { IsReadableIn other.now gate.now.right }
    ensures { result ≡ gate_moved graph.now other.now gate.now }
{
    Gate {
        v: graph.max() + gate.v,
        left: moved_literal(graph, other, gate.left),
        right: moved_literal(graph, other, gate.right),
    }
}

fn moved_literal(graph: &Graph, other: &Graph, lit: Lit) -> Lit
    requires shape { AreOfOneShape graph.now other.now }
    requires readable { IsReadableIn other.now lit }
    ensures { result ≡ literal_moved graph.now other.now lit }
{
    Lit(2 * moved_variable(graph, other, lit.var()) + lit.0 % 2)
}

// The variable that a variable of the second graph has among the merged ones.
fn moved_variable(graph: &Graph, other: &Graph, variable: u32) -> u32
    requires shape { AreOfOneShape graph.now other.now }
    requires low { variable ≤ other.now.max }
    ensures value { result ≡ moved graph.now other.now variable }
    ensures low { result < 2 ^ 31 }
{
    if variable == 0 {
        return 0;
    }
    let inputs = graph.input_literals();
    let others = other.input_literals();
    for place in 0..others.len() {
        if others[place].var() == variable {
            return inputs[place].var();
        }
    }
    graph.max() + variable
}

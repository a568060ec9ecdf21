// The plain plan: all columns, and then the gates by their levels.
ghost use Rattle.std.specs.Prelude.{◌≡◌, ◌<◌, ◌^◌, ◌++◌, reverse, List, ℕ, IfOk, length, map};
ghost use Rattle.std.specs.List.{All};
ghost use Rattle.graph_core.specs.Graph.{IsLevel};
ghost use Rattle.frontier_core.specs.Sets.{count_from};
ghost use Rattle.frontier_core.specs.declared.step.Step.TheVariants.{Add, Eliminate};
ghost use Rattle.column_reducer.specs.Keys.{AreGateKeys};
ghost use Rattle.graph_core.specs.Graph.Extended.{without_cut};
ghost use Rattle.frontier_core.specs.Plan.{plain_steps};
ghost use Rattle.frontier_core.specs.PlainOrder.{IsPlainOrder};

use crate::plan::Plan;
use frontier_core::Step;
use graph_core::{Graph, Memory};
use ripple_graft::Extended;
use std::alloc::Global;

/// Adds all columns first, which counts as step 0, and then eliminates the gates by greater level, ties by greater
/// variable: step t is after t gates. The extended graph is a graph alone.
pub fn plain_plan<'a>(alloc: Global, extended: &'a Extended<'a>) -> Result<Plan<'a>, Memory>
    requires alone { extended.now ≡ without_cut extended.now.graph }
    ensures extended { IfOk result (λ p. p.extended ≡ extended.now) }
    ensures uncounted { IfOk result (λ p. p.uncounted ≡ length extended.now.graph.outputs) }
    ensures plain { IfOk result (λ p. (vs : List ℕ) × IsPlainOrder extended.now.gates vs ×
        (p.steps ≡ plain_steps extended.now vs)) }
{
    let _gates = extended.gates();
    let graph = extended.graph();
    let outputs = graph.outputs() as usize;
    let order = levels(alloc, graph)?;
    let steps = columns(alloc, outputs)?;
    let steps = then_gates(steps, order)?;
    Ok(Plan {
        extended,
        steps,
        uncounted: outputs,
    })
}

// The gates after other steps, the last key first.
fn then_gates(mut steps: Vec<Step>, keys: Vec<(u32, u32)>) -> Result<Vec<Step>, Memory>
    ensures { IfOk result (λ all. all.items ≡ steps.items ++ map Eliminate (reverse (map (λ key. key.1) keys.items))) }
{
    let mut left = keys;
    while let Some(key) = left.pop() {
        steps.push(Step::Eliminate(key.1))?;
    }
    Ok(steps)
}

// The steps that add all columns.
fn columns(alloc: Global, outputs: usize) -> Result<Vec<Step>, Memory>
    requires { outputs < 2 ^ 32 }
    ensures { IfOk result (λ steps. steps.items ≡ map Add (count_from 0 outputs)) }
{
    let mut steps = Vec::new(alloc);
    for k in 0..outputs {
        steps.push(Step::Add(k as u32))?;
    }
    Ok(steps)
}

// The levels and variables of a graph's gates, rising.
fn levels(alloc: Global, graph: &Graph) -> Result<Vec<(u32, u32)>, Memory>
    ensures { IfOk result (λ keys. AreGateKeys graph.now.gates keys.items) }
{
    let mut keys = keys_of(alloc, graph)?;
    keys.sort()?;
    Ok(keys)
}

// The level and the variable of each gate.
fn keys_of(alloc: Global, graph: &Graph) -> Result<Vec<(u32, u32)>, Memory>
    ensures levels { IfOk result (λ keys. All (λ key. IsLevel graph.now.gates key.1 key.0) keys.items) }
    ensures variables { IfOk result (λ keys. map (λ key. key.1) keys.items ≡ map (λ x. x.v) graph.now.gates) }
{
    let mut keys = Vec::new(alloc);
    for gate in graph.gates() {
        keys.push((graph.level(gate.v), gate.v))?;
    }
    Ok(keys)
}

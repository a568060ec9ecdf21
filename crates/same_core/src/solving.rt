// What a solver says of merged gates.
ghost use Rattle.std.specs.Prelude.{◌≡◌, ◌≤◌, IfOk, length, map};
ghost use Rattle.cdcl_solver.specs.Solving.{assignment_of};
ghost use Rattle.goal_refuter.specs.Refuting.{IsGoalsOutcome};
ghost use Rattle.graph_core.specs.Graph.Assignments.{literal};
ghost use Rattle.same_core.specs.Merged.{over};
ghost use Rattle.same_core.specs.Places.{IsMerged};

use crate::merged::Merged;
use gate_sweeper::refute_swept;
use goal_refuter::{Outcome, pair_goals};
use graph_core::{Graph, Memory};
use miter_encoder::gate_clauses_of;
use std::alloc::Global;

// What comes of the goals of merged gates.
pub(crate) fn decide(alloc: Global, merged: &Merged, conflicts: u64) -> Result<Outcome, Memory>
    requires { IsMerged merged.now }
    ensures { IfOk result (IsGoalsOutcome (over merged.now) conflicts) }
{
    let merged_gates = merged.gates();
    let clauses = gate_clauses_of(alloc, merged_gates)?;
    let goals = pair_goals(alloc, merged.pairs())?;
    let swept = merged.swept();
    refute_swept(alloc, &swept, &clauses, &goals, conflicts)
}

// The inputs of a graph where its variables have these values.
pub(crate) fn inputs_at(
    alloc: Global,
    graph: &Graph,
    values: &Vec<bool>,
) -> Result<Vec<bool>, Memory>
    requires { graph.now.max ≤ length values.now.items }
    ensures { IfOk result (λ inputs. inputs.items ≡
        map (literal (assignment_of values.now.items)) graph.now.inputs) }
{
    let mut inputs = Vec::new(alloc);
    for input in graph.input_literals() {
        // an input is a variable, which is not the constant
        inputs.push(values[(input.var() - 1) as usize])?;
    }
    Ok(inputs)
}

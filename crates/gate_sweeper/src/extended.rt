// A graph with gates beside it, swept.
ghost use Rattle.std.specs.Prelude.{◌≡◌, ◌<◌, IfOk, length};
ghost use Rattle.std.specs.List.{All};
ghost use Rattle.graph_core.specs.Graph.Extended.{without_cut};
ghost use Rattle.ripple_graft.specs.Beside.{IsBeside, with_beside};
ghost use Rattle.goal_refuter.specs.Refuting.{IsGoalsOutcome};
ghost use Rattle.gate_sweeper.specs.Pairs.{pairs_at};

use crate::levels::levels_beside;
use crate::refuting::refute_swept;
use crate::swept::{Models, Swept};
use goal_refuter::{Outcome, pair_goals};
use graph_core::{Graph, Lit, Memory};
use miter_encoder::gate_clauses;
use ripple_graft::{Beside, Extended};
use std::alloc::Global;

/// What comes of showing that the new outputs of a graph with gates beside it are its old ones. Each gate of the graph
/// that looks equal to one beside it is shown to be, from the inputs upward.
pub fn show_extended(
    alloc: Global,
    extended: &Extended<'_>,
    beside: &Beside,
    conflicts: u64,
) -> Result<Outcome, Memory>
    requires beside { IsBeside extended.now.graph beside.now }
    requires graph { extended.now ≡ with_beside (without_cut extended.now.graph) beside.now }
    ensures { IfOk result (IsGoalsOutcome extended.now conflicts) }
{
    let max = extended.max();
    let clauses = gate_clauses(alloc, extended)?;
    let pairs = pairs_of(alloc, extended.graph(), beside.outputs.as_slice())?;
    let goals = pair_goals(alloc, &pairs)?;
    let levels = levels_beside(alloc, extended)?;
    let swept = Swept {
        max,
        gates: extended.gates(),
        levels: &levels,
        pairs: &pairs,
        models: Models::Above(extended.graph().max()),
    };
    refute_swept(alloc, &swept, &clauses, &goals, conflicts)
}

// Of each new output the graph's at its column, and it.
fn pairs_of(alloc: Global, graph: &Graph, outputs: &[(u32, Lit)]) -> Result<Vec<(Lit, Lit)>, Memory>
    requires { All (λ c. c.0 < length graph.now.outputs) outputs.now }
    ensures { IfOk result (λ pairs. pairs.items ≡ pairs_at graph.now outputs.now) }
{
    let old = graph.output_literals();
    let mut pairs = Vec::new(alloc);
    for (column, new) in outputs {
        pairs.push((old[*column as usize], *new))?;
    }
    Ok(pairs)
}

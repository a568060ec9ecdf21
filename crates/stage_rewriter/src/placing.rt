// Gates beside a graph, and literals in place of its outputs.
ghost use Rattle.std.specs.Prelude.{◌≡◌, IfOk};
ghost use Rattle.graph_core.specs.Graph.Extended.{without_cut};
ghost use Rattle.graph_core.specs.Graph.Operands.{AreOperandsOf, HasShapeFor};
ghost use Rattle.ripple_graft.specs.Beside.{IsBeside, with_beside};
ghost use Rattle.stage_rewriter.specs.Placing.{AgreesBeside, IsPlacing};

use crate::difference::numbers_of;
use cdcl_solver::Log;
use gate_sweeper::show_extended;
use goal_refuter::Outcome;
use graph_core::{Graph, Memory, Numbers, Operands};
use ripple_graft::{Beside, Extended, graft_beside};
use std::alloc::Global;

/// A graph with what stands beside it, whose new outputs are the graph's on every evaluation, as the log's lines show.
#[derive(Debug, Drop)]
pub struct Placed<'a> {
    pub beside: Beside,
    pub extended: Extended<'a>,
    pub log: Log,
}

/// What comes of putting gates beside a graph, and literals in place of its outputs.
#[derive(Debug, Drop)]
pub enum Placing<'a> {
    /// The new outputs are the graph's.
    Shown(Placed<'a>),
    /// Operands and an addend at which a new output isn't the graph's.
    Differs(Numbers),
    /// As many lemmas as there may be conflicts, and beside them the goals that were refuted before the one in hand.
    Spent { lemmas: u64, goal: u64, log: Log },
}

/// Puts gates beside a graph, and literals in place of its outputs, where so many conflicts are enough to show that the
/// new outputs are the graph's.
pub fn place_beside<'a>(
    alloc: Global,
    graph: &'a Graph,
    operands: &Operands,
    conflicts: u64,
    beside: Beside,
) -> Result<Placing<'a>, Memory>
    requires beside { IsBeside graph.now beside }
    requires shape { HasShapeFor operands.now.claim.widths graph.now }
    requires operands { AreOperandsOf graph.now operands.now }
    ensures placing { IfOk result (IsPlacing graph.now operands.now conflicts beside) }
    ensures agrees { IfOk result AgreesBeside }
{
    // without faults
    let _max = graph.max();
    let extended = graph_with(alloc, graph, &beside)?;
    match show_extended(alloc, &extended, &beside, conflicts)? {
        Outcome::Refuted(log) => Ok(Placing::Shown(Placed {
            beside,
            extended,
            log,
        })),
        Outcome::Model(values) => {
            let numbers = numbers_of(alloc, graph, operands, &values)?;
            Ok(Placing::Differs(numbers))
        }
        Outcome::Spent(goal, log) => Ok(Placing::Spent {
            lemmas: conflicts,
            goal,
            log,
        }),
    }
}

// The graph with what stands beside it.
fn graph_with<'a>(alloc: Global, graph: &'a Graph, beside: &Beside) -> Result<Extended<'a>, Memory>
    requires { IsBeside graph.now beside.now }
    ensures { IfOk result (λ extended. extended ≡ with_beside (without_cut graph.now) beside.now) }
{
    let alone = Extended::without_cut(graph);
    let extended = graft_beside(alloc, alone, beside)?;
    Ok(extended)
}

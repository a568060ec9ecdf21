// A graph's final stage, and a ripple-carry adder in its place.
ghost use Rattle.std.specs.Prelude.{◌≡◌, ℕ, IfOk};
ghost use Rattle.graph_core.specs.Graph.{Aig};
ghost use Rattle.graph_core.specs.Graph.Operands.{AreOperandsOf, HasShapeFor};
ghost use Rattle.ripple_graft.specs.Blocks.{IsCut, with_cut};
ghost use Rattle.adder_finder.specs.FinalStage.{IsFinalStage};
ghost use Rattle.stage_rewriter.specs.Rewriting.{Agrees, IsRewriting, IsRewritingAt};

use crate::difference::numbers_of;
use crate::outcome::refute_all;
use adder_finder::final_stage;
use cdcl_solver::Log;
use goal_refuter::Outcome;
use graph_core::{Graph, Memory, Numbers, Operands};
use ripple_graft::{Cut, Extended, GraftFail, graft};
use std::alloc::Global;

// At a cut that isn't known to be a final stage, pairs are often the sum and the carry of the same two literals, which
// are read this deep below them.
const DEPTH: u32 = 4;

/// What comes of putting a ripple-carry adder in place of a graph's final stage.
#[derive(Debug, Drop)]
pub enum Rewriting<'a> {
    /// The adder's outputs are the graph's on every evaluation, as the log's lines show.
    Used {
        cut: Cut,
        extended: Extended<'a>,
        log: Log,
    },
    /// There is no final stage.
    None,
    /// Operands and an addend at which an output of the adder isn't the graph's.
    Differs(Numbers),
    /// As many lemmas as there may be conflicts, and beside them the goals that were refuted before the one in hand.
    Spent {
        lemmas: u64,
        goal: u64,
        log: Log,
    },
}

/// Puts a ripple-carry adder in place of a graph's final stage, where so many conflicts are enough to show that its
/// outputs are the graph's.
pub fn rewrite<'a>(
    alloc: Global,
    graph: &'a Graph,
    operands: &Operands,
    conflicts: u64,
) -> Result<Rewriting<'a>, Memory>
    requires shape { HasShapeFor operands.now.claim.widths graph.now }
    requires operands { AreOperandsOf graph.now operands.now }
    ensures rewriting { IfOk result (IsRewriting graph.now operands.now conflicts) }
    ensures agrees { IfOk result Agrees }
{
    match final_stage(alloc, graph)? {
        None => Ok(Rewriting::None),
        Some(cut) => replace(alloc, graph, operands, conflicts, cut),
    }
}

/// Puts a ripple-carry adder in place of a cut of a graph, where so many conflicts are enough to show that its outputs
/// are the graph's. There is no answer `None`.
pub fn rewrite_at<'a>(
    alloc: Global,
    graph: &'a Graph,
    operands: &Operands,
    conflicts: u64,
    cut: Cut,
) -> Result<Rewriting<'a>, Memory>
    requires cut { IsCut graph.now cut }
    requires shape { HasShapeFor operands.now.claim.widths graph.now }
    requires operands { AreOperandsOf graph.now operands.now }
    ensures rewriting { IfOk result (IsRewritingAt graph.now operands.now conflicts cut) }
    ensures agrees { IfOk result Agrees }
{
    rewrite_near(alloc, graph, operands, conflicts, cut, DEPTH)
}

// The same, with what is read so deep below the pairs counted as near.
fn rewrite_near<'a>(
    alloc: Global,
    graph: &'a Graph,
    operands: &Operands,
    conflicts: u64,
    cut: Cut,
    depth: u32,
) -> Result<Rewriting<'a>, Memory>
    requires cut { IsCut graph.now cut }
    requires shape { HasShapeFor operands.now.claim.widths graph.now }
    requires operands { AreOperandsOf graph.now operands.now }
    ensures rewriting { IfOk result (IsRewritingAt graph.now operands.now conflicts cut) }
    ensures agrees { IfOk result Agrees }
{
    let extended = graft_cut(alloc, graph, &cut)?;
    match refute_all(alloc, &extended, &cut, depth, conflicts)? {
        Outcome::Refuted(log) => Ok(Rewriting::Used { cut, extended, log }),
        Outcome::Model(values) => {
            let numbers = numbers_of(alloc, graph, operands, &values)?;
            Ok(Rewriting::Differs(numbers))
        }
        Outcome::Spent(goal, log) => Ok(Rewriting::Spent {
            lemmas: conflicts,
            goal,
            log,
        }),
    }
}

// The same, with the final stage.
fn replace<'a>(
    alloc: Global,
    graph: &'a Graph,
    operands: &Operands,
    conflicts: u64,
    cut: Cut,
) -> Result<Rewriting<'a>, Memory>
    requires stage { IsFinalStage graph.now cut }
    requires shape { HasShapeFor operands.now.claim.widths graph.now }
    requires operands { AreOperandsOf graph.now operands.now }
    ensures rewriting { IfOk result (IsRewriting graph.now operands.now conflicts) }
    ensures agrees { IfOk result Agrees }
{
    // without faults
    let _max = graph.max();
    let rewritten = rewrite_near(alloc, graph, operands, conflicts, cut, 0)?;
    Ok(rewritten)
}

// The graph with the adder of a cut.
fn graft_cut<'a>(alloc: Global, graph: &'a Graph, cut: &Cut) -> Result<Extended<'a>, Memory>
    requires { IsCut graph.now cut.now }
    ensures { IfOk result (λ extended. extended ≡ with_cut graph.now cut.now) }
{
    match graft(alloc, graph, cut) {
        Ok(extended) => Ok(extended),
        Err(GraftFail::Memory) => Err(Memory),
        Err(GraftFail::Columns) => unreachable!(),
        Err(GraftFail::Literal(_)) => unreachable!(),
    }
}

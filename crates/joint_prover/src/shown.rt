// The graphs that plans run over: the graph that was read, alone or with an adder at a cut that a solver has shown.
ghost use Rattle.std.specs.Prelude.{◌≡◌, None, Some, IfOk, IfSome};
ghost use Rattle.command_core.specs.declared.task.Task.{Task as TaskOf};
ghost use Rattle.frontier_core.specs.LastFrontier.{AgreeEverywhere};
ghost use Rattle.graph_core.specs.Graph.Extended.{AgreeOnColumns, without_cut};
ghost use Rattle.graph_core.specs.Graph.{Aig, IsWellFormed};
ghost use Rattle.graph_core.specs.Graph.Operands.{AreOperandsOf, HasShapeFor, Sides};
ghost use Rattle.mv_fact.specs.Always.{Always};
ghost use Rattle.stage_rewriter.specs.Placing.{IsShownBeside};
ghost use Rattle.stage_rewriter.specs.Rewriting.{Agrees, IsRewriting, IsShownRewriting};
ghost use Rattle.joint_prover.specs.declared.replacement.Replacement.TheVariants.{Adder, Beside};
ghost use Rattle.joint_prover.specs.Endings.{IsShown, replacement_named};
ghost use Rattle.joint_prover.specs.Notes.{replacement_in};

use crate::replacement::Lent;
use cdcl_solver::Log;
use clause_core::Line;
use graph_core::{Graph, Memory, Operands};
use ripple_graft::{Cut, Extended};
use stage_guesser::candidate;
use stage_rewriter::{Placed, Rewriting, rewrite_at};
use std::alloc::Global;

// How many cuts are looked at.
const TRIES: u32 = 8;

// The share of the conflicts that the first of them may have: the rest is kept for a reference beside the graph.
const SHARE: u64 = 8;

/// An extended graph, what takes the place of its outputs, if anything, and the lines that show that these are the
/// graph's.
#[derive(Clone, Copy)]
pub(crate) struct Shown<'a> {
    pub(crate) extended: &'a Extended<'a>,
    pub(crate) by: Option<Lent<'a>>,
    pub(crate) log: &'a [Line],
}

impl<'a> Shown<'a> {
    /// The graph alone, of which nothing has to be shown.
    pub(crate) fn alone(extended: &'a Extended<'a>) -> Shown<'a>
        ensures shown { (g : Aig) (task : TaskOf) →
            extended.entry.now ≡ without_cut g → IsShown g task result }
        ensures named { replacement_named result ≡ None }
    {
        Shown {
            extended,
            by: None,
            log: &[],
        }
    }

    /// The graph with the adder of a cut, which this log shows.
    pub(crate) fn with_adder(cut: &'a Cut, extended: &'a Extended<'a>, log: &'a Log) -> Shown<'a>
        ensures shown { (g : Aig) (task : TaskOf) →
            IsShownRewriting g task.conflicts cut.entry.now extended.entry.now log.entry.now.lines →
            Always extended.entry.now.gates (AgreeOnColumns extended.entry.now) → IsShown g task result }
        ensures named { replacement_named result ≡ Some (Adder cut.entry.now) }
    {
        Shown {
            extended,
            by: Some(Lent::Adder(cut)),
            log: log.lines(),
        }
    }

    /// The graph with what is placed beside it.
    pub(crate) fn with_beside(placed: &'a Placed<'a>) -> Shown<'a>
        ensures shown { (g : Aig) (task : TaskOf) → IsShownBeside g task.conflicts placed.entry.now →
            Always placed.entry.now.extended.gates (AgreeOnColumns placed.entry.now.extended) →
            task.version ≡ 3 → IsShown g task result }
        ensures named { replacement_named result ≡ Some (Beside placed.entry.now.beside) }
    {
        Shown {
            extended: &placed.extended,
            by: Some(Lent::Beside(&placed.beside)),
            log: placed.log.lines(),
        }
    }

    /// The graph with the adder in place of its final stage, where that is used, else the graph alone.
    pub(crate) fn used(rewritten: &'a Rewriting<'a>, alone: Shown<'a>) -> Shown<'a>
        requires none { replacement_named alone ≡ None }
        ensures shown { (g : Aig) (task : TaskOf) → IsWellFormed g → (operands : Sides) →
            IsRewriting g operands task.conflicts rewritten.entry.now →
            Agrees rewritten.entry.now → IsShown g task alone.entry → IsShown g task result }
        ensures named { replacement_named result ≡ replacement_in rewritten.entry.now }
    {
        match rewritten {
            Rewriting::Used { cut, extended, log } => Shown::with_adder(cut, extended, log),
            _ => alone,
        }
    }
}

/// A cut that was found by the values of its variables, the graph with the adder there, and the log that shows it.
#[derive(Debug, Drop)]
pub(crate) struct Found<'a> {
    pub(crate) cut: Cut,
    pub(crate) extended: Extended<'a>,
    pub(crate) log: Log,
}

/// A cut that is found and shown, within a share of so many conflicts. Numbers at which one differs are held against the
/// next, which may have half as many conflicts.
pub(crate) fn find_cut<'a>(
    alloc: Global,
    graph: &'a Graph,
    operands: &Operands,
    conflicts: u64,
) -> Result<Option<Found<'a>>, Memory>
    requires shape { HasShapeFor operands.now.claim.widths graph.now }
    requires operands { AreOperandsOf graph.now operands.now }
    ensures shown { IfOk result (λ found. IfSome found (λ f.
        IsShownRewriting graph.now conflicts f.cut f.extended f.log.lines)) }
    ensures agree { IfOk result (λ found. IfSome found (λ f. AgreeEverywhere f.extended)) }
{
    let mut given = Vec::new(alloc);
    let mut left = conflicts / SHARE;
    for _try in 0..TRIES {
        let Some(cut) = candidate(alloc, graph, operands, &given)? else {
            return Ok(None);
        };
        match rewrite_at(alloc, graph, operands, left, cut)? {
            Rewriting::Used { cut, extended, log } => {
                return Ok(Some(Found { cut, extended, log }));
            }
            Rewriting::Differs(numbers) => given.push(numbers)?,
            _ => return Ok(None),
        }
        left /= 2;
    }
    Ok(None)
}

// References beside a graph: multipliers that are read off the values of its signals.
ghost use Rattle.std.specs.Prelude.{IfOk};
ghost use Rattle.joint_prover.specs.Endings.{IsCompared, IsJob};
ghost use Rattle.graph_core.specs.Graph.Operands.{AreInRange};

use crate::seen::seen_at;
use crate::task::Job;
use graph_core::{Memory, Numbers};
use reference_guesser::{Guesses, Reference};
use stage_rewriter::{Placed, Placing, place_beside};
use std::alloc::Global;

// Of fewer gates in a thousand no signal of the graph has the values: then it isn't worth while to compare the two.
const LEAST_KNOWN: u32 = 400;

/// What comes of a reference beside the graph.
#[derive(Debug, Drop)]
pub(crate) enum Compared<'a> {
    /// Its outputs are the graph's on every evaluation.
    Equal(Placed<'a>),
    /// At these numbers the graph isn't what is claimed.
    Wrong(Numbers),
    /// Neither is known.
    Open,
}

/// The next reference beside the graph, where so many conflicts are enough to show that its outputs are the graph's.
pub(crate) fn compare<'a>(
    alloc: Global,
    job: &Job<'a>,
    guesses: &mut Guesses,
    conflicts: u64,
) -> Result<Compared<'a>, Memory>
    requires { IsJob job.now }
    ensures { IfOk result (IsCompared job.now conflicts) }
{
    let Some(reference) = guesses.take(alloc, job.graph)? else {
        return Ok(Compared::Open);
    };
    let Reference { beside, known } = reference;
    if known < LEAST_KNOWN {
        return Ok(Compared::Open);
    }
    match place_beside(alloc, job.graph, job.operands, conflicts, beside)? {
        Placing::Shown(placed) => Ok(Compared::Equal(placed)),
        Placing::Differs(numbers) => if_wrong(alloc, job, numbers),
        Placing::Spent { .. } => Ok(Compared::Open),
    }
}

// Whether the graph is wrong at these numbers. Else the reference is.
fn if_wrong<'a>(alloc: Global, job: &Job<'a>, numbers: Numbers) -> Result<Compared<'a>, Memory>
    requires job { IsJob job.now }
    requires range { AreInRange job.now.operands.now numbers }
    ensures { IfOk result (IsCompared job.now 0) }
{
    match seen_at(alloc, job, numbers)? {
        Some(_) => Ok(Compared::Wrong(numbers)),
        None => Ok(Compared::Open),
    }
}

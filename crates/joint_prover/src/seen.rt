// Numbers on which a graph is seen to differ from what is claimed, where they need not be the least.
ghost use Rattle.std.specs.Prelude.{IfOk, IfSome};
ghost use Rattle.graph_core.specs.Graph.Operands.{AreInRange};
ghost use Rattle.joint_prover.specs.Endings.{IsJob};
ghost use Rattle.joint_prover.specs.Verdicts.{IsSeen};

use crate::difference::{Difference, value_on};
use crate::task::Job;
use graph_core::{Memory, Numbers};
use operand_search::some_seen;
use std::alloc::Global;

/// What is seen on a few hundred fixed numbers, or on those where an adder's outputs aren't the graph's, if some are
/// known.
pub(crate) fn see(
    alloc: Global,
    job: &Job<'_>,
    differing: Option<Numbers>,
) -> Result<Option<Difference>, Memory>
    requires job { IsJob job.now }
    requires differing { IfSome differing (AreInRange job.now.operands.now) }
    ensures { IfOk result (λ seen. IfSome seen (IsSeen job.now.graph.now job.now.task.claim)) }
{
    if let Some(numbers) = some_seen(alloc, job.graph, job.operands)? {
        return seen_at(alloc, job, numbers);
    }
    match differing {
        Some(numbers) => seen_at(alloc, job, numbers),
        None => Ok(None),
    }
}

/// What is seen on these numbers.
pub(crate) fn seen_at(
    alloc: Global,
    job: &Job<'_>,
    numbers: Numbers,
) -> Result<Option<Difference>, Memory>
    requires job { IsJob job.now }
    requires range { AreInRange job.now.operands.now numbers }
    ensures { IfOk result (λ seen. IfSome seen (IsSeen job.now.graph.now job.now.task.claim)) }
{
    let there = value_on(alloc, job, numbers)?;
    if there.value == there.claimed {
        return Ok(None);
    }
    Ok(Some(there))
}

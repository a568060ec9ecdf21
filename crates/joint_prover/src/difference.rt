// Numbers on which a graph differs from what is claimed, or is looked at for it.
ghost use Rattle.std.specs.Prelude.{◌≡◌, IfOk};
ghost use Rattle.graph_core.specs.Graph.Operands.{AreInRange};
ghost use Rattle.joint_prover.specs.Endings.{IsJob};
ghost use Rattle.joint_prover.specs.Verdicts.{IsValued};

use crate::task::Job;
use graph_core::{Memory, Numbers};
use operand_search::claimed_value;
use std::alloc::Global;

/// Numbers on which a graph's value isn't what is claimed, that value, and what is claimed there. Operands are told as
/// their bits count unsigned.
#[derive(Clone, Copy, Debug, PartialEq, Eq)]
pub struct Difference {
    pub numbers: Numbers,
    /// whether there is an addend: else it is 0
    pub has_addend: bool,
    pub value: u128,
    /// the product, or the product plus the addend, modulo 2 ^ the number of outputs
    pub claimed: u128,
}

/// The graph's value on these numbers, and what is claimed there.
pub(crate) fn value_on(alloc: Global, job: &Job<'_>, numbers: Numbers) -> Result<Difference, Memory>
    requires job { IsJob job.now }
    requires range { AreInRange job.now.operands.now numbers }
    ensures numbers { IfOk result (λ d. d.numbers ≡ numbers) }
    ensures valued { IfOk result (IsValued job.now.graph.now job.now.task.claim) }
{
    let value = job.graph.value_at(alloc, job.operands, numbers)?;
    let claimed = claimed_value(job.operands, numbers, job.graph.outputs());
    let has_addend = job.task.claim.widths.has_addend();
    Ok(Difference {
        numbers,
        has_addend,
        value,
        claimed,
    })
}

// The goals of an adder's columns that no constant has met.
ghost use Rattle.std.specs.Prelude.{◌≡◌, IfOk};
ghost use Rattle.clause_core.specs.Likeness.{AreSameSets};
ghost use Rattle.ripple_graft.specs.Blocks.{IsCut, with_cut};
ghost use Rattle.goal_refuter.specs.Refutations.{unmet_goals};

use clause_core::ClauseList;
use goal_refuter::push_goals;
use graph_core::Memory;
use ripple_graft::{Cut, Extended};
use std::alloc::Global;

/// The goals that aren't met, column by column upward: that the old output implies the new one, and the other way
/// round.
pub(crate) fn unmet_goals(
    alloc: Global,
    extended: &Extended<'_>,
    cut: &Cut,
) -> Result<ClauseList, Memory>
    requires cut { IsCut extended.now.graph cut.now }
    requires graph { extended.now ≡ with_cut extended.now.graph cut.now }
    ensures { IfOk result (λ goals. AreSameSets goals (unmet_goals extended.now)) }
{
    let mut goals = ClauseList::new(alloc);
    let _gates = extended.gates();
    let outputs = extended.graph().output_literals();
    for column in cut.lo as usize..outputs.len() {
        let new = extended.new_output(column as u32);
        push_goals(alloc, &mut goals, outputs[column], new)?;
    }
    Ok(goals)
}

// The slice plan's steps.
ghost use Rattle.std.specs.Prelude.{◌≡◌, ℕ, List, IfOk, OnOk};
ghost use Rattle.std.specs.List.{All, Contains};
ghost use Rattle.slice_planner.specs.GroupPlans.{AreAtGroups, AreGroups};
ghost use Rattle.slice_planner.specs.Arranged.{lists_in};
ghost use Rattle.slice_planner.specs.Slices.{IsSlicePlan};

use crate::arrangement::Arrangement;
use crate::arranging::arranged;
use crate::due::due_groups;
use crate::taking::Taking;
use frontier_core::Step;
use graph_core::Memory;
use ripple_graft::Extended;
use std::alloc::Global;

/// The steps of a slice plan: the columns from the last down to 0, and after each the groups of gates that are due
/// there and can go. Over adders and products of inputs, each gate listed after those that it reads, the groups are
/// those of the list.
pub(crate) fn slice_steps<'a>(
    alloc: Global,
    extended: &'a Extended<'a>,
) -> Result<Vec<Step>, Memory>
    ensures { IfOk result (λ steps. IsSlicePlan extended.now steps.items) }
{
    let _gates = extended.gates();
    let arrangement = arranged(alloc, extended)?;
    let due = due_groups(alloc, extended, &arrangement)?;
    let mut taking = Taking::new(alloc, extended)?;
    while let Some(column) = taking.add_column()? {
        take_due(&mut taking, &arrangement, &due, column)?;
    }
    taking.finish(&arrangement)
}

/// Eliminates those of the groups that are due after a column that can go.
pub(crate) fn take_due(
    taking: &mut Taking<'_>,
    arrangement: &Arrangement,
    due: &[Vec<usize>],
    column: usize,
) -> Result<(), Memory>
    requires { All (Contains taking.old.extended.gates) arrangement.now.gates }
    ensures extended { taking.new.extended ≡ taking.old.extended }
    ensures below { taking.new.below ≡ taking.old.below }
    ensures groups { OnOk result ((gs : List (List ℕ)) → lists_in arrangement.now ≡ gs →
        AreGroups taking.old.extended gs → AreAtGroups taking.old.extended gs taking.old.steps →
        AreAtGroups taking.old.extended gs taking.new.steps) }
{
    match due.get(column) {
        Some(places) => taking.try_due(arrangement, places),
        None => Ok(()),
    }
}

// Steps by layers.
ghost use Rattle.std.specs.Prelude.{IfOk};
ghost use Rattle.std.specs.List.{All, Contains};
ghost use Rattle.slice_planner.specs.ColumnPlans.{IsColumnPlan};

use crate::adders::{adders_and_gates, gates_alone};
use crate::arrangement::Arrangement;
use crate::arranging::by_levels;
use crate::due::due_groups;
use crate::grouping::grouped;
use crate::layers::in_layers;
use crate::slicing::take_due;
use crate::sums_last::sums_last;
use crate::taking::Taking;
use frontier_core::Step;
use graph_core::Memory;
use ripple_graft::Extended;
use std::alloc::Global;

/// The columns from the last down to 0, and after each the gates that nothing reads any more: those nearest to the
/// outputs first, full adders whole. Where the gates stand in the list and how they are numbered counts for little.
pub(crate) fn layered_steps<'a>(
    alloc: Global,
    extended: &'a Extended<'a>,
) -> Result<Vec<Step>, Memory>
    ensures { IfOk result (λ steps. IsColumnPlan extended.now steps.items) }
{
    let arrangement = adders_in_layers(alloc, extended)?;
    let due = due_groups(alloc, extended, &arrangement)?;
    let rest = by_levels(alloc, extended)?;
    steps_by(alloc, extended, &arrangement, &due, &rest)
}

/// The columns from the last down to 0, and then the gates alone, those nearest to the outputs first.
pub(crate) fn columns_first_steps<'a>(
    alloc: Global,
    extended: &'a Extended<'a>,
) -> Result<Vec<Step>, Memory>
    ensures { IfOk result (λ steps. IsColumnPlan extended.now steps.items) }
{
    let arrangement = gates_in_layers(alloc, extended)?;
    steps_by(alloc, extended, &arrangement, &[], &arrangement)
}

/// The columns from the last down to 0, and then the gates alone: of those that nothing reads any more, tops of
/// exclusive ors only where there is no other one.
pub(crate) fn sums_last_steps<'a>(
    alloc: Global,
    extended: &'a Extended<'a>,
) -> Result<Vec<Step>, Memory>
    ensures { IfOk result (λ steps. IsColumnPlan extended.now steps.items) }
{
    let arrangement = sums_last(alloc, extended)?;
    steps_by(alloc, extended, &arrangement, &[], &arrangement)
}

// The full adders and the other gates in their layers; the gates alone where an adder reads itself through others.
fn adders_in_layers(alloc: Global, extended: &Extended<'_>) -> Result<Arrangement, Memory>
    ensures { IfOk result (λ a. All (Contains extended.now.gates) a.gates) }
{
    let adders = adders_and_gates(alloc, extended)?;
    let places = in_layers(alloc, extended, &adders)?;
    if places.len() == adders.len() {
        grouped(alloc, extended, &adders, &places)
    } else {
        gates_in_layers(alloc, extended)
    }
}

// The gates alone in their layers.
fn gates_in_layers(alloc: Global, extended: &Extended<'_>) -> Result<Arrangement, Memory>
    ensures { IfOk result (λ a. All (Contains extended.now.gates) a.gates) }
{
    let gates = gates_alone(alloc, extended)?;
    let places = in_layers(alloc, extended, &gates)?;
    grouped(alloc, extended, &gates, &places)
}

// The columns, and after each those of the groups that are due there and can go; what is left goes in an order of its
// own.
fn steps_by<'a>(
    alloc: Global,
    extended: &'a Extended<'a>,
    arrangement: &Arrangement,
    due: &[Vec<usize>],
    rest: &Arrangement,
) -> Result<Vec<Step>, Memory>
    requires gates { All (Contains extended.now.gates) arrangement.now.gates }
    requires rest { All (Contains extended.now.gates) rest.now.gates }
    ensures { IfOk result (λ steps. IsColumnPlan extended.now steps.items) }
{
    let mut taking = Taking::new(alloc, extended)?;
    while let Some(column) = taking.add_column()? {
        take_due(&mut taking, arrangement, due, column)?;
    }
    taking.finish(rest)
}

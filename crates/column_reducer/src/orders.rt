// The column plans: columns from the last down, and the gates in one of the orders of elimination.
ghost use Rattle.std.specs.Prelude.{◌≡◌, IfOk};
ghost use Rattle.slice_planner.specs.ColumnPlans.{IsColumnPlan};
ghost use Rattle.slice_planner.specs.Slices.{IsSlicePlan};
ghost use Rattle.slice_planner.specs.declared.order.Order.TheVariants as order_is;

use crate::plan::Plan;
use graph_core::Memory;
use ripple_graft::Extended;
use slice_planner::{Order, column_steps};
use std::alloc::Global;

/// Adds the columns from the last down to 0, and eliminates the gates in an order. The frontier before the first step
/// counts, which is 0.
pub fn column_plan<'a>(
    alloc: Global,
    order: Order,
    extended: &'a Extended<'a>,
) -> Result<Plan<'a>, Memory>
    ensures extended { IfOk result (λ p. p.extended ≡ extended.now) }
    ensures uncounted { IfOk result (λ p. p.uncounted ≡ 0) }
    ensures columns { IfOk result (λ p. IsColumnPlan extended.now p.steps) }
    ensures slices { order ≡ order_is.Slices → IfOk result (λ p. IsSlicePlan extended.now p.steps) }
{
    let steps = column_steps(alloc, order, extended)?;
    Ok(Plan {
        extended,
        steps,
        uncounted: 0,
    })
}

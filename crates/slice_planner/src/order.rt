// Orders of elimination, and the steps of a plan in one of them.
ghost use Rattle.std.specs.Prelude.{◌≡◌, IfOk};
ghost use Rattle.slice_planner.specs.ColumnPlans.{IsColumnPlan};
ghost use Rattle.slice_planner.specs.Slices.{IsSlicePlan};
ghost use Rattle.slice_planner.specs.declared.order.Order.TheVariants as order_is;

use crate::layering::{columns_first_steps, layered_steps, sums_last_steps};
use crate::slicing::slice_steps;
use frontier_core::Step;
use graph_core::Memory;
use ripple_graft::Extended;
use std::alloc::Global;

/// Where gates are eliminated, while the columns are added from the last down.
#[derive(Clone, Copy, Debug, PartialEq, Eq)]
pub enum Order {
    /// after each column, by slices
    Slices,
    /// after each column, by their layers
    ByColumn,
    /// after all columns, by their layers
    AtEnd,
    /// after all columns, tops of exclusive ors after all others
    SumsLast,
}

/// The steps of the plan of an order: the columns from the last down to 0, and the gates after those that read them.
pub fn column_steps<'a>(
    alloc: Global,
    order: Order,
    extended: &'a Extended<'a>,
) -> Result<Vec<Step>, Memory>
    ensures columns { IfOk result (λ steps. IsColumnPlan extended.now steps.items) }
    ensures slices { order ≡ order_is.Slices → IfOk result (λ steps. IsSlicePlan extended.now steps.items) }
{
    match order {
        Order::Slices => slice_steps(alloc, extended),
        Order::ByColumn => layered_steps(alloc, extended),
        Order::AtEnd => columns_first_steps(alloc, extended),
        Order::SumsLast => sums_last_steps(alloc, extended),
    }
}

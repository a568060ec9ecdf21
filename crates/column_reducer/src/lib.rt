//! Reductions of a multiplier's columns along a plan, with the lines of a certificate that state what they do.
//!
//! `plain_plan` gives the plan that adds all columns and then eliminates the gates by their levels, `column_plan` one
//! that adds the columns from the last down, with the gates in an order of elimination. `reduce` takes the steps of a
//! plan: a column is added, or a gate's variable is replaced by the product of its operands. After each step the
//! polynomial that is kept is the next frontier's function. It ends at the first frontier with more monomials than the
//! budget, or with the last one, and then the lines have one whose value is the specification minus it (`reduced`), at
//! most two lines more than there are gates (`few`). `Passed` comes exactly at the first step that leaves a frontier
//! above the budget, with its size.
//!
//! *Frontier*, *plan*, *size*: those of `frontier_core`. *Counts*: a plan may have steps before the first frontier that
//! counts, which is that of step 0 (`Planned` in `specs/Reducing.antt`). *Part*: an axiom times a polynomial. Each gate
//! that the polynomial has leaves one; the parts of many gates are gathered into a *batch*, which is one line over
//! parts that are divided by a power of two, and a last line adds the batches up, each times its *weight*, that power.
//! A replaced column k is added with its new output; its axiom times 2^k is a part of the last line, so that this one
//! has the graph's own outputs.
#![tactic(auto)]

mod batch_lines;
mod elimination;
mod fresh_index;
mod frontier;
mod frontier_walk;
mod gate_part;
mod gathered;
mod orders;
mod pieces;
mod plain;
mod plan;
mod reduced;
mod reduction;
mod walk;

pub use orders::column_plan;
pub use plain::plain_plan;
pub use plan::Plan;
pub use reduced::Reduced;
pub use reduction::reduce;

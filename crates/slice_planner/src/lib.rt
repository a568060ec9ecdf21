//! Plans whose columns are added from the last down: the slice plan, and plans by layers.
//!
//! `column_steps` gives the steps of a plan in one of four orders, over any extended graph. By `Slices` the gates go
//! after each column that can go then. They are taken in groups, each whole or not at all: the half and full adders of
//! a list that is adders over products of inputs, and else single gates by their levels. After which column a group is
//! tried is a guess: it goes only where nothing else reads its gates any more, and what no guess reached goes at the
//! end. So every graph has such a plan, and over a multiplier that is made of adders it goes adder by adder and its
//! frontiers are small.
//!
//! `ByColumn` looks at no list: full adders are found by their shapes, and they and the other gates are taken by their
//! layers, those nearest to the outputs first. So trees of other blocks, such as compressors of multiplexers, are taken
//! stage by stage. `AtEnd` has all columns before the gates, alone and by their layers: its frontiers are greater, and
//! stay small where a circuit was made smaller across its adders. `SumsLast` has all columns first as well, and takes
//! tops of exclusive ors only where no other gate can go: carries meet before sums are taken apart.
//!
//! *Plan*, *step*, *frontier*: those of `frontier_core`. *Group*: a short list of gates; a plan *goes by groups* where
//! one group after the other is eliminated, so at any time at most one is split; the *groups of a list* are cut off
//! from its end: half and full adders, and single gates (`specs/Groups.antt`). `AreGroups` is what a list of groups
//! must be, and `AreAtGroups` the invariant of a loop that pushes steps (`specs/GroupPlans.antt`). *Column plan*: a
//! plan whose columns are added from the last down to 0 (`specs/ColumnPlans.antt`). *Slice plan*: a column plan that
//! goes by the groups of a list of adders (`specs/SlicePlan.antt`, `specs/Slices.antt`). *Layer*: the longest way from
//! an output down to a gate.
//!
//! Laws: the groups of a list in order, and the gates of the plain order each alone, are groups in which readers come
//! first; whatever groups are due after a column, the steps that take them are a plan and go by groups.
#![tactic(auto)]

mod adders;
mod arrangement;
mod arranging;
mod due;
mod grouping;
mod laws;
mod layering;
mod layers;
mod listed;
mod order;
mod shapes;
mod slicing;
mod sums_last;
mod taking;

pub use laws::{
    column_is_pushed, first_groups, group_is_pushed, groups_finish, listed_groups_serve,
    next_group_follows, plain_groups_serve, slice_plan_serves,
};
pub use order::{Order, column_steps};

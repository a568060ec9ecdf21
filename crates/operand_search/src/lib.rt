//! The least operands and addend on which a graph differs from what is claimed, by trying those with few ones.
//!
//! `least_within` answers the least difference exactly where it has at most so many ones, else None: then every
//! difference has more. It goes through the values of the inputs in the order of differences (fewer ones first, as many
//! by the lexicographically least list of positions), and evaluates the graph on 64 of them at a time, in the bits of
//! one word a variable. With k ones among n inputs there are n! / (k! (n - k)!) values: of 128 inputs 8,257 with at
//! most two ones, and 349,633 with at most three. `most_ones_within` says how many ones some work is enough for, two at
//! least. `some_seen` looks at a few hundred fixed values of the inputs, and `least_seen` looks for the least
//! difference only where these show that there is one: the None of both says nothing.
//!
//! *Difference*, *least difference*: `LeastDifference` of `frontier_core`.
#![tactic(auto)]

mod claimed;
mod comparison;
mod draws;
mod enumeration;
mod lanes;
mod sampling;
mod search;
mod simulation;
mod work;

pub use claimed::claimed_value;
pub use sampling::{least_seen, some_seen};
pub use search::least_within;
pub use work::most_ones_within;

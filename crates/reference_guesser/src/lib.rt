//! Guessing a reference multiplier from the values of a graph's signals.
//!
//! `guess` answers gates beside the graph and a new output for each column: a multiplier that is made of whole full
//! adders, of which as many as can be have the values of the graph's signals on some operands, the same at each call.
//! That its outputs equal the graph's is to be shown by whoever uses it, and that it multiplies too.
//!
//! `Guesses` has several of them. Only that the answer is beside the graph (`IsBeside`) is proved: each gate reads
//! constants, inputs, gates of the graph or earlier ones, and each column has at most one new output. Which one it is,
//! is a heuristic. Gates that no output depends on stand there too: *stones*, which make it easier to show that the
//! outputs are equal.
//!
//! *Beside*: `specs/Beside.antt` of `ripple_graft`. *Row*: the values of a signal on all patterns. *Known*: some gate
//! of the graph has the row, or its negation's. *Merge*: a half adder or a full adder over addends of a column.
#![tactic(auto)]

mod adders;
mod beam;
mod booth;
mod evidence;
mod fallback;
mod fitting;
mod gates;
mod groups;
mod guessing;
mod joining;
mod known;
mod merge;
mod patterns;
mod pool;
mod products;
mod row;
mod signals;
mod stones;
mod style;
mod sure;
mod tree;
mod values;
mod words;

pub use guessing::{Guesses, Reference, guess};

//! Guessing the final stage of a multiplier from the values of its variables on some operands.
//!
//! `candidate` answers a cut of the graph, or none. On some operands, the same at each call, the outputs from the cut's
//! first column on are those of a ripple-carry adder over its pairs; whether they are on all operands is to be shown by
//! whoever uses the cut. Operands on which a cut was wrong can be handed in, and the next one is right on them.
//!
//! A `Signature` is the values of a literal on all patterns: of the constant, a negation, a conjunction, or what is set
//! (`pattern_value`). `is` is true exactly where two are equal. `Draws` are numbers to draw patterns by.
//!
//! *Cut*: `specs/Blocks.antt` of `ripple_graft`. *Value* on a pattern: `specs/Values.antt`. Of `candidate` only that
//! the answer is a cut is proved: which one it is, is a heuristic. Which numbers are drawn, and which key a signature
//! has, is too.
#![tactic(auto)]

mod chain;
mod choices;
mod draws;
mod guess;
mod near;
mod patterns;
mod raised;
mod signature;
mod table;

pub use draws::Draws;
pub use guess::candidate;
pub use signature::{Signature, WORDS};

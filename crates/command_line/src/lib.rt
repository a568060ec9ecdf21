//! The words of a command line, by `clap`.
//!
//! `read_words` answers with what the words ask for (`ok`), and `Usage` exactly where they ask for nothing (`usage`);
//! memory may be wanting. Numbers are in their ranges, and names apart where writing would harm a file (`range`). This
//! is the one crate that loads `clap`.
//!
//! What plain words ask for is a law, the contract of `plain_words`: any three names that begin with no hyphen, after
//! `check`, are the files that are asked for; a number is what decimal digits spell below 2^128, and two widths are two
//! such numbers from 1 to 64 with an x between them; the options, the designs, `trial` and too few words by example.
//!
//! *Asked*: what words ask for, by what `clap` says of the fixed command, the texts that are named, and numbers in
//! their range (`specs/Asked.antt`). *Fixed command*: `mulver` with its subcommands, as `clap` is given it
//! (`specs/FixedCommand.antt`). *Usage*: the words ask for nothing.
#![tactic(auto)]

mod builders;
mod command;
mod defaults;
mod examples;
mod fail;
mod making;
mod overwriting;
mod point;
mod reading;
mod single;
mod texts;

pub use command::Command;
pub use defaults::{BUDGET, CONFLICTS};
pub use examples::plain_words;
pub use fail::WordsFail;
pub use making::Making;
pub use point::Point;
pub use reading::read_words;

//! What all commands have in common: what is asked, the names of files, how a graph file is read, and why a call stops.
//!
//! `read_graph` opens a file in a slot and reads it, as `read_file` of `aiger_reader` does: Ok only with a graph that
//! the file spells (`spelled`), and else a `Stop` (`refused`). A `Stop` is a graph refused, a failed read or write, a
//! length that is passed, or out of memory: each command's answer carries it beside its own causes, and where each
//! comes is said once for all of them.
//!
//! `Names`, `SameNames` and `TrimNames` have the names of a command's files: of a graph and its certificates, of two
//! graphs, and of a pair that is trimmed. A command line owns each `FileName`; `lent` gives the same names as texts.
//! `Task` is what is asked of a graph.
//!
//! *Stop*, *due*, *interrupts*: `specs/Stopping.antt`. Which answer is due of files that are read in an order, each over
//! what the one before it gives: `specs/InOrder.antt`. *Told*: the desk tells the bytes under a name. The names that
//! are lent, as texts: `files_of` and its like (both in `specs/Files.antt`). What writing a file, or a pair of
//! certificates, does to the outside: `specs/Written.antt`.
#![tactic(auto)]

mod file_name;
mod names;
mod reading;
mod stop;
mod task;

pub use file_name::FileName;
pub use names::{Names, SameNames, TrimNames};
pub use reading::read_graph;
pub use stop::Stop;
pub use task::Task;

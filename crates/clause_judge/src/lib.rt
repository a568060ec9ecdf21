//! Judges the lines of a clause certificate and its goals, over any gates.
//!
//! `judge` lets a new checker of the gates' clauses, for goals, take the lines after the header of a file, up to the end
//! of the file, and then asks for the goals. It says that the lines are lawful and show each goal, and which clauses
//! they add, where these are kept, and then the old and the new output of each column with goals are equal on every
//! evaluation of the gates; or the first refusal, or a length that is met before any (`lawful`, `columns`, `refused`).
//! That there are such lines it says of a file that isn't told, too (`shown`); and that what it hands out of added
//! clauses holds, with chains that are tight (`facts`, `chains`). A failed read is answered where it was counted, and
//! out of memory at any time.
//!
//! What gates these are, and which outputs are to be equal, is an extended graph (`graph_core`): one with a cut, or two
//! graphs that are merged. *Passed*, *shown*: `specs/ClauseBody.antt`. *First refusal*: `specs/LineRefusals.antt`.
//! *Taken*: `specs/Taking.antt`.
#![tactic(auto)]

mod clause_checker;
mod clause_line;
mod fail;
mod judging;

pub use clause_line::line_refused;
pub use fail::{ClauseFail, ClauseWhy};
pub use judging::judge;

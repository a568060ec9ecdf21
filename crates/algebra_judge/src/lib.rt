//! Judges the lines of an algebra certificate, over any extended graph.
//!
//! `judge` lets a new checker of the graph's axioms take the lines after the header of a file, up to the closing line
//! and the end of the file. It says that they are lawful over what the checker stands on, and close; or the first
//! refusal, or a length that is met before any (`lawful`, `refused`). That the specification is then 0 on every
//! evaluation of the gates it says of a file that isn't told, too (`vanishes`). Where the checker records, what it hands
//! out is lawful and closes, and is what a told file has (`recorded`, `told`). A failed read is answered where it was
//! counted, and out of memory at any time.
//!
//! What stands before the lines, and which clauses they may import, is the caller's. *Lawful*: `specs/AlgebraBody.antt`.
//! *First refusal*: `Refusal` of `algebra_core`. *Recorded*: `specs/Records.antt`.
#![tactic(auto)]

mod algebra_line;
mod fail;
mod judging;
mod read_line;

pub use algebra_line::line_refused;
pub use fail::{AlgebraFail, AlgebraWhy};
pub use judging::{Closed, judge};

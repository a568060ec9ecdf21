//! Lines of an algebra certificate that are written from drafts, and what the last one leaves of the specification.
//!
//! A `Draft` of `gate_axioms` says in plain numbers which known lines a line adds up, and by which factors. Nothing
//! has to be known of it: `write_drafts` computes the sum, so each line that it writes is lawful, and refuses a draft
//! that isn't a line. Where the specification minus the last line is over inputs alone, it gives that polynomial
//! (`rest`); and whatever the lines between were, that is the last frontier's function
//! (`line_rest_is_last_frontier`). So whoever makes drafts uses a heuristic: bad ones can only fail. There are at
//! most 16 lines for each gate (`few`). `split_lines` drafts lines that were written, where each long one becomes
//! several: no contract says more of it than that it returns.
//!
//! *Known*: of a line that is live with its polynomial in the table (`specs/Drafts.antt`). *Rest of a line*: a
//! polynomial over inputs alone by which a live line differs from the specification (`specs/LineRests.antt`).
//! *Frontier*: that of `frontier_core`.
#![tactic(auto)]

mod axiom_lines;
mod known;
mod laws;
mod line;
mod open_draft;
mod remainder;
mod splitting;
mod writing;

pub use laws::line_rest_is_last_frontier;
pub use splitting::split_lines;
pub use writing::write_drafts;

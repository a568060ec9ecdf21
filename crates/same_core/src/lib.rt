//! Judges whether two graphs are the same: for all inputs all their outputs agree. They may be any graphs of at most
//! 256 inputs, odd numbers and 0 among them, and of 1 to 256 outputs.
//!
//! `merge` puts the gates of two graphs into one list over the same inputs, and answers `Shape` exactly where the
//! numbers of inputs or outputs differ. `check_same` opens the two graphs and a clause certificate, reads the
//! certificate line by line, and says what the files come to: accepted where the bytes spell two graphs of one shape
//! and each line meets its rule, and then the graphs agree; else the first refusal, or a length that is met before any
//! refusal. A failed read is answered where it was counted, and out of memory at any time.
//!
//! `same` lets a solver refute that some output differs, within a number of conflicts: where each goal is refuted it
//! writes the certificate, which `check_same` accepts, or a front part of it after a write fault; where an evaluation
//! differs it gives its inputs. Before the goals, gates of both graphs that look equal are shown to be, from the inputs
//! upward (SAT sweeping): which ones, is a heuristic, and what shows it are lemmas, which count among the conflicts;
//! where propagation alone shows it, there is none.
//!
//! Laws: graphs with a lawful certificate agree; what is written is lawful; to two graphs and a certificate one answer
//! is due; the pairs that are called equal are held under their names.
//!
//! *Merged gates*, *agree*: `specs/Merged.antt`. *Lawful*, *first refusal*: `specs/Certificates.antt`. *Told*:
//! `specs/Files.antt`. *Due*, *outcome*: `specs/Outcome.antt`. *Answer*: `specs/Deciding.antt`.
#![tactic(auto)]

mod certificate;
mod checked;
mod checking;
mod clauses;
mod deciding;
mod laws;
mod merged;
mod pairs;
mod solving;
mod verdict;

pub use checked::{SameChecked, SameRefusal};
pub use checking::check_same;
pub use clause_judge::ClauseWhy as SameWhy;
pub use deciding::same;
pub use laws::{
    certificates_are_exact, equal_pairs_are_held, lawful_graphs_agree, merged_is_pair,
    merged_outputs_agree, one_answer_is_due, outcomes_are_exact, pair_answers_are_exact,
    pairs_are_decided, written_is_lawful,
};
pub use merged::{MergeFail, Merged, merge};
pub use verdict::Same;

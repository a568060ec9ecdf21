//! Writes a pair of certificates again without the lines that nothing uses.
//!
//! `trim` reads and judges a pair as `check` does. Where it is accepted, each added clause has been recorded with a
//! tight chain, and each line of the algebra certificate that introduces an id. From the closing line back it is then
//! found which of these are used: lines that a kept line names, clauses that they import, and what shows the goals,
//! each with what its chain uses. They are written under new names, in their order, and imports by new numbers. Nothing
//! is created before that is known, and writing takes no memory. Where the pair isn't accepted the answer is that of
//! `check`. `opened` says how many files were opened. Laws: the new pair is held under its names
//! (`trimmed_pairs_are_held`), and why what is kept is lawful, used, and can be written (`specs/Trimmed.antt`).
//!
//! *Tight chain*: `specs/TightChains.antt` of `clause_core`. *Kept*, *used*: `specs/KeptClauses.antt` of `clause_core`,
//! and `specs/KeptLines.antt`. *Mark*: whether a clause or a line is kept, by its place (`specs/Marking.antt`,
//! `specs/Lines.antt`). *Rank*: the new number of a clause, from 1. What the new pair is: `specs/NewPairs.antt`. What
//! is answered, and where: `specs/Trimming.antt`.
#![tactic(auto)]

mod answer;
mod choosing;
mod chosen;
mod imports;
mod keeping;
mod kept_lines;
mod laws;
mod marks;
mod operands;
mod reading;
mod renaming;
mod roots;
mod trimming;

pub use answer::{TrimAnswer, Trimmed};
pub use laws::{
    kept_clauses_are_trimmed, kept_imports_are_there, kept_lines_are_lawful,
    kept_lines_are_writable, kept_pair_is_lawful, renumbered_lines_serve, trimmed_pairs_are_held,
};
pub use trimming::trim;

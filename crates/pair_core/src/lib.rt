//! Pairs of certificates: what a clause certificate gives the algebra, what a pair for a graph is, and how one is
//! written.
//!
//! A clause certificate *gives premises* where its lines are lawful and each replaced column is met or shown: its
//! version, the graph extended by its header, and in versions above 1 the values of its added clauses
//! (`specs/ClauseFiles.antt`). A *pair* is lawful where the algebra certificate is lawful over premises that the clause
//! certificate gives (`specs/Certificates.antt`).
//!
//! A `Pair` has both certificates in memory. `write_pair` creates the clause file and writes it, and then the algebra
//! file, whole (`whole`) or in front parts with a counted fault (`stops`, `cause`); it takes no memory. The texts are
//! those of `specs/Texts.antt`.
#![tactic(auto)]

mod pair;

pub use pair::{Pair, write_pair};

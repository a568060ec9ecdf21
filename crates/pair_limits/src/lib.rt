//! Which file of a pair of certificates is past the limits, if any: told before the pair is written.
//!
//! `first_too_long` counts the bytes of both texts as `write_pair` writes them, and takes no memory. Of the algebra it
//! counts terms and variables at first: mostly that tells already that it is short enough. The clause file comes first.
//! Its answer is exact: with None both texts are within the limits, and else the one that it names isn't
//! (`specs/TooLong.antt`).
//!
//! *Room*: how many more bytes a file and its line may have (`specs/Rooms.antt`).
#![tactic(auto)]

mod algebra;
mod clauses;
mod polynomials;
mod room;
mod surely;
mod too_long;

pub use too_long::first_too_long;

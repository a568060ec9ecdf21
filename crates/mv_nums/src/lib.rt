//! Numbers modulo a power of two, and decimal numerals.
//!
//! Each call of `Residue` is the whole-number operation modulo 2^width; a sum, a product and the like have operands of
//! one width. `read_decimal` gives the number that digits spell, or the one of three causes why the text spells none
//! below 2^128; `print` writes the one numeral without leading zeros. Nothing here takes memory. `Residue::sub` and
//! `Residue::is_zero` are public for other programs; no command uses them.
//!
//! *Residue class*: a width from 1 to 128, and the number below 2^width that stands for the class
//! (`specs/Residue.antt`).
//! *Numeral*: decimal digits, the greatest weight first, and the number that they spell (`specs/Numeral.antt`).
#![tactic(auto)]

mod number_fault;
mod numeral;
mod residue;

pub use number_fault::NumberFault;
pub use numeral::{print, read_decimal};
pub use residue::Residue;

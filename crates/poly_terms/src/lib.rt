//! Polynomials over truth values, with coefficients modulo a power of two.
//!
//! Each call that makes a polynomial says its value at every assignment; `equals` is true exactly where two polynomials
//! agree at every assignment, and `size`, `coefficient` and `vars` are those of the one normal form. A table only
//! grows: each monomial is kept once, and an older polynomial keeps its values. `Indexed` is a polynomial that changes
//! in place, and from which the terms with a variable are taken out in their own number's time, `PolySum` a sum of
//! many, which is taken whole and leaves 0. Nothing but the calls that make or change a polynomial takes memory.
//! `substitute` and `value_at` are public for other programs; no command uses them.
//!
//! What `Indexed::take` leaves has the variable in no term. That its index is complete is a clause of each call, also
//! where the table grows; after an error nothing is known of it.
//!
//! *Value*: that of the monomials in the table, modulo its modulus. *Of the table*: in normal form there, as each
//! polynomial is that a call of this table made. *Extends*: gives each polynomial of the old table its value
//! (`specs/Tables.antt`, with the laws in `specs/Laws.antt`; a caller names these in `using`).
//!
//! ```text
//! let mut terms = Terms::new(alloc, 8);                            // coefficients modulo 2^8
//! let gate = terms.make(&[(1, vec![in alloc; 3]?), (255, vec![in alloc; 1, 2]?)])?;   // x3 - x1 * x2
//! let operands = terms.make(&[(1, vec![in alloc; 1, 2]?)])?;                          // x1 * x2
//! let nothing = terms.substitute(&gate, 3, &operands)?;            // x1 * x2 in place of x3
//! assert!(terms.size(&nothing) == 0);
//! ```
#![tactic(auto)]

mod addition;
mod block;
mod carrying;
mod chains;
mod coefficient;
mod coefficients;
mod counted_coefficients;
mod evaluation;
mod indexed;
mod key;
mod lists;
mod monomial;
mod multiple_sum;
mod multiplication;
mod numbering;
mod numbers;
mod parts;
mod places;
mod poly;
mod poly_sum;
mod product_sum;
mod quotient;
mod scaling;
mod substitution;
mod table_laws;
mod term;
mod terms;
mod variables;

pub use indexed::Indexed;
pub use poly::Poly;
pub use poly_sum::PolySum;
pub use table_laws::{indexes_stay, modulus_stays, tables_extend, values_stay};
pub use terms::Terms;
pub use variables::Variables;

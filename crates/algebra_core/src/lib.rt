//! Polynomials and algebra certificates, by the values that they have: definitions with their laws.
//!
//! A *polynomial* is a sum of terms over truth values (`specs/Polynomials.antt`), and has one normal form
//! (`NormalForm`). A *ledger* has the live lines, the greatest id in use so far, and the values that lines may import;
//! a *lawful line* has a new id, names live lines and what is there, and states a polynomial with the value that its
//! rule names (`AlgebraLines`). The lines are lawful one after the other, and the closing one names the
//! *specification*: the outputs' word minus what is claimed. How a certificate is written: `Text`; the first cause of
//! each refusal: `Refusal`.
//!
//! There is no code. A law is the contract of a public function with an empty body: what a lawful certificate closes
//! with is 0 on every evaluation, and then the graph does what is claimed; a file is lawful or has one first refusal;
//! what ledgers that agree and lines that are alike have in common.
#![tactic(auto)]

mod certificate_laws;
mod ledger_laws;
mod polynomial_laws;

pub use certificate_laws::{
    algebra_is_exact, algebra_is_read, algebra_is_sound, algebra_line_is_read, axioms_vanish,
    close_is_read, vanishing_means_claim, vanishing_meets_claim, vanishing_multiplies,
};
pub use ledger_laws::{
    agreement_is_equivalence, agreement_is_kept, ledger_is_map, likeness_is_kept,
    live_lines_vanish, premises_are_kept,
};
pub use polynomial_laws::{
    normal_form_exists, normal_form_is_one, normal_forms_differ, size_is_one,
};

//! Algebra certificates that are written: any lines, and lines that are made in a type that keeps that each is lawful.
//!
//! `write_certificate` writes the whole text of a version of lines that are given, and takes no memory. By the law of
//! `specs/LawfulTexts.antt` it is a lawful algebra file with these lines where they are lawful and in range.
//!
//! `Lines` starts with the axioms of an extended graph. `combine` puts the sum of live lines times polynomials after
//! the others, `drop_line` deletes a live line, and `close` ends the certificate with a line of the specification's
//! value; each asks its caller for just what makes the line lawful. `emit` takes no memory and writes their text, whole
//! or in a front part with a counted fault (`writes`). The whole text is a lawful algebra file that imports nothing
//! (`lawful`), and each of its lines is spare (`spare`). `into_parts` gives closed lines as `write_certificate` takes
//! them. `emit` and `drop_line` are public for other programs; no command uses them.
//!
//! *Ledger*: the live lines after all that were made (`written_ledger` in `specs/Writing.antt`). *Puts*: one line more
//! stands after the others. *Spare*: no line twice in a combination, none times 0, each polynomial in its normal
//! form (`specs/Spare.antt`). *Text*: that of `specs/Certificates.antt`, by `WrittenLines` of `poly_text`.
#![tactic(auto)]

mod certificate;
mod laws;
mod lines;
mod writing;

pub use certificate::write_certificate;
pub use laws::written_certificates_are_lawful;
pub use lines::Lines;

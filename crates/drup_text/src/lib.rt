//! The text of clause certificates of the versions 1 to 3: a header that names blocks, or gates beside a graph and
//! outputs, and lines of clauses, read from bytes and written.
//!
//! `ClauseFile::start` reads the header of a certificate from a desk and answers its version and what it names, which
//! the graph takes, or the first refusal within the header. `next` gives the lines after it, one by one, and none at
//! the end; only the line in hand is held. Each refusal is the first of too long, text and range, with the number of
//! its line, and is given again from then on. `write_clauses` takes no memory, and appends exactly a certificate's
//! text, or a front part of it where writing failed. By the laws of `specs/WrittenLaws.antt` what it writes is read as
//! the same, and a header that passes has no refusal. `start_same` and `write_same` are for the certificate of two
//! graphs, which has one line of its own before those of clauses (`specs/SameFiles.antt`).
//!
//! *Cut*, *block*: where a ripple-carry adder replaces columns (`ripple_graft`); version 1 names one cut at most,
//! version 2 blocks in order. *Beside*: gates that are no adder's, and literals that take the place of outputs; version
//! 3 names these. *Listing*: a line with a number, and so many lines (`specs/Listings.antt`). *Text of*: the text says
//! this line, up to the order and the repeats of its literals (`specs/ClauseTexts.antt`, `specs/LineTexts.antt`).
//! *First refusal*: `specs/HeaderRefusal.antt`. *Ahead*: read into the piece in hand, and not yet taken; what is *left*
//! of a file is what is ahead and then what the desk has left (`specs/LineReading.antt` and
//! `specs/CertificateFiles.antt` of `mv_text`). *Passes* a header: `specs/PassingHeaders.antt`.
#![tactic(auto)]

mod beside;
mod blocks;
mod clause_file;
mod clause_reading;
mod fault;
mod head;
mod header;
mod header_reading;
mod laws;
mod line_reading;
mod numbers;
mod writing;

pub use clause_file::ClauseFile;
pub use fault::StartFail;
pub use head::Header;
pub use laws::{
    one_text_is_one_file, passing_headers_are_not_refused, written_files_are_read,
    written_headers_pass, written_lines_are_read, written_same_is_read,
};
pub use writing::{write_clauses, write_same};

//! Texts read and written by pieces over a desk: the layer below graphs and certificates.
//!
//! `LineReader` gives the lines of a file from a slot, and meets the lengths of lines and of the file at their places.
//! `CertificateFile` counts them, and gives its end or its first failure again at each later call. `judge_lines` has
//! them judged one after the other, up to the first answer. `Scanner` takes texts and numbers from the front of a line,
//! as the readers of the definitions do, and its `all` answers what was found where nothing is left. `Output` writes a
//! text put piece by piece: the file grows by exactly the text, or by a front part where a write failed. Nothing here
//! takes memory but a line and the list that `push` fills.
//!
//! Less than a piece of 4,096 bytes is read past a line that `LineReader` gives. After a write that failed `Output`
//! writes nothing more, and tells that first fault at the end.
//!
//! *Ahead*: read into the piece in hand, and not yet taken; what is *left* of a file is what is ahead and then what the
//! desk has left (`specs/LineReading.antt`). What a line says in a grammar, and why there is none:
//! `specs/CertificateFiles.antt`. *Leads to*: `specs/Judging.antt`. *Takes*: a reader gave a value, and left these
//! bytes (`specs/Steps.antt`). *Puts*: a text waits after what was put before, or is written (`specs/Puts.antt`).
#![tactic(auto)]

mod byte_reader;
mod certificate_file;
mod judging;
mod line_fail;
mod line_reader;
mod output;
mod pushing;
mod room;
mod scanner;

pub use certificate_file::CertificateFile;
pub use judging::{JudgeLines, judge_lines};
pub use line_fail::LineFail;
pub use line_reader::LineReader;
pub use output::Output;
pub use pushing::push;
pub use room::ROOM;
pub use scanner::Scanner;

//! The outside of the program: files by slots, a report, and counts of opened files and of faults.
//!
//! A call on a desk fails only where the count of faults of its kind rose, and then nothing else changed. What is read
//! is what was left, what is written comes after what was written before, and nothing else changes, as far as the desk
//! tells its contents at all. `MemoryDesk` is public for other programs and for tests: its calls fail and are cut as a
//! test asks for.
//!
//! `read_front` gives a file's bytes, of a longer file at least its first limit + 1 bytes; or why not. `write_all`
//! appends all bytes, or a front part with a fault. That calls on real files succeed, and what they read, no clause
//! says; nor that `RealDesk` creates no file that it has opened or created, under whatever name.
//!
//! *View*: what a desk tells (`specs/View.antt`); contents and names are optional in it. What each call does to a
//! view is a word of `specs/Calls.antt`: *opens*, *reads only*, *creates*, *writes to*. *Rose*: a count of faults
//! grew, or stands at its type's end.
#![tactic(auto)]

mod counts;
mod desk;
mod faults;
mod limits;
mod memory;
mod real;
mod slot;
mod whole;

pub use desk::{Desk, Failed};
pub use faults::{ReadFault, WriteFault};
pub use limits::Limits;
pub use memory::{HonestDesk, MemoryDesk};
pub use real::RealDesk;
pub use slot::Slot;
pub use whole::{read_front, write_all};

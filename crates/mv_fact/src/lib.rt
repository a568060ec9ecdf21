//! Facts that hold on every evaluation of a list of gates.
//!
//! `Live` owns a table and facts by id. Its type keeps that each live fact belongs to the table and holds on every
//! evaluation of one list of gates: `insert` asks for it, growth of the table keeps it, and `get` gives it. So
//! whoever has a live fact may use it, and needn't know how it came to be live.
//!
//! `insert` answers `IdUsed` exactly where the id is live. `get` and `remove` find exactly what is live, and take no
//! memory. Each changes that id alone, and a refused call changes nothing. `grow` and `grow_from` keep every fact. `at`
//! goes over all that are live.
//!
//! *Fact*: a statement on assignments of truth values to variables, which may cite a table that only grows
//! (`Fact`). *Belongs*: the table has what the fact cites. *Extends*: a table that has grown. *Live*: inserted and
//! not removed. *Work*: what is lent the table to make it grow (`Grow`, `GrowFrom`). What contracts see of `Live`
//! is the record `Facts` (`specs/Facts.antt`); `Always` is 'on every evaluation' (`specs/Always.antt`).
#![tactic(auto)]

mod fact;
mod fault;
mod grow;
mod live;

pub use fact::Fact;
pub use fault::{InsertFail, NoSuchId};
pub use grow::{Grow, GrowFrom};
pub use live::Live;

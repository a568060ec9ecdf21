//! Clause certificates: which clauses follow from the live ones, and which goals they show.
//!
//! A `Checker` begins with the clauses of some gates. `add` takes a clause exactly where it follows by reverse unit
//! propagation, `delete` one exactly where a live clause has its set, and a refused call changes nothing (`unchanged`).
//! `unshown` is the least column with a goal that is neither met nor shown. Each live clause holds on every evaluation
//! of the gates, and so do the added ones. A checker may keep these, with what their tight chains use (`Keeps`,
//! `into_record`, `chains`). `chain` gives a tight chain exactly for a clause that follows (`some`, `none`): it is
//! public for other programs; no command uses it. Only `new`, `add` and `chain` take memory.
//!
//! *Tight*: by `specs/TightChains.antt` of `clause_core`. *Follows*, *chain*, *live*, *shown*: by
//! `specs/UnitPropagation.antt` and `specs/ClauseLines.antt` of `clause_core`.
#![tactic(auto)]

mod chains;
mod checker;
mod fault;
mod keeps;
mod laws;
mod least;
mod numbers;
mod place_numbers;
mod record;
mod rup;
mod showing;
mod store;
mod tautology;
mod tight;

pub use checker::Checker;
pub use fault::{AddFail, NoSuchClause};
pub use keeps::Keeps;
pub use laws::{added_are_right, goals_are_judged, marks_are_right, steps_are_lawful};
pub use numbers::Numbers;
pub use record::Record;

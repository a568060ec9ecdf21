//! Shows gates equal that look equal, from the inputs upward (SAT sweeping), and then refutes the negations of goals.
//!
//! Some gates are *models*, and any other may be shown equal to one of them: a model with operands that were shown
//! equal, or with the same values on drawn patterns of the inputs. So may a *stone*, a model that reads other gates and
//! that no output depends on. Which ones, is a heuristic; what shows it are lemmas, which count among the conflicts.
//!
//! `refute_swept` is `refute_goals` of `goal_refuter` after a sweep, over any gates (`Swept`). `show_extended` does so
//! with a graph and gates beside it, which are the models. Each answers one of three: the log, whose lines are a lawful
//! clause certificate that shows each goal; an evaluation of the gates at which some goal fails; or a spent budget with
//! the log that spent it.
//!
//! *Beside*: `specs/Beside.antt` of `ripple_graft`. *Outcome*: `specs/Refuting.antt` of `goal_refuter`.
#![tactic(auto)]

mod cones;
mod extended;
mod levels;
mod patterns;
mod refuting;
mod rows;
mod sweeping;
mod swept;
mod turns;
mod twins;

pub use extended::show_extended;
pub use levels::push_levels;
pub use refuting::refute_swept;
pub use swept::{Models, Swept};

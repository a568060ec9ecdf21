// The ends of a trial.
use crate::sample::Sample;
use joint_prover::Note;

/// A multiplier that was made.
#[derive(Clone, Copy)]
pub struct Multiplier {
    pub sample: Sample,
    /// how many gates it has
    pub gates: u64,
}

/// What `trial` says of the multiplier that a number names.
#[derive(Drop)]
pub enum Tested {
    /// It was proved, and the certificates were accepted; with the note on a rewriting.
    Accepted {
        multiplier: Multiplier,
        note: Note,
    },
    /// All plans passed the budget: the plain order's first frontier above it; with the note on a rewriting.
    Undecided {
        multiplier: Multiplier,
        step: u64,
        size: u64,
        note: Note,
    },
    /// No memory for the multiplier, for its files, or for the work on them.
    Memory,
}

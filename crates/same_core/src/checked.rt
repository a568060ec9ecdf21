// What a check of two graphs ends with.
use crate::pairs::PairFail;
use clause_judge::{ClauseFail, ClauseWhy};
use command_core::Stop;

/// Why a clause certificate is refused: at which of its lines (from 1) and why, or at which output (from 0) for its
/// goals.
#[derive(Clone, Copy, Debug, PartialEq, Eq)]
pub enum SameRefusal {
    Clauses { line: u64, why: ClauseWhy },
    /// The least output that the clauses don't show to be the same in both graphs.
    Goals { output: u32 },
}

/// What `check_same` says of two graphs and their certificate.
#[derive(Clone, Copy, Debug, PartialEq, Eq)]
pub enum SameChecked {
    /// Each line meets its rule, and all outputs of the two graphs agree for all inputs.
    Accepted,
    /// The certificate is refused.
    Refused(SameRefusal),
    /// The graphs haven't as many inputs, or not as many outputs.
    Shapes,
    /// There is no such answer. A `WriteFault` never comes.
    Stopped(Stop),
}

impl From<PairFail> for SameChecked {
    ghost use Rattle.std.specs.Prelude.{◌≡◌};
    ghost use Rattle.same_core.specs.Answers.{answer_of_pair};

    ghost from_gives = { λ fail answer. answer ≡ answer_of_pair fail };

    fn from(fail: PairFail) -> Self {
        match fail {
            PairFail::Shapes => SameChecked::Shapes,
            PairFail::Stopped(why) => SameChecked::Stopped(why),
        }
    }
}

impl From<ClauseFail> for SameChecked {
    ghost use Rattle.std.specs.Prelude.{◌≡◌};
    ghost use Rattle.same_core.specs.Answers.{pair_answer_of_clauses};

    ghost from_gives = { λ fail answer. answer ≡ pair_answer_of_clauses fail };

    fn from(fail: ClauseFail) -> Self {
        match fail {
            ClauseFail::Line { line, why } => SameChecked::Refused(SameRefusal::Clauses {
                line,
                why,
            }),
            ClauseFail::Goals { column } => SameChecked::Refused(SameRefusal::Goals {
                output: column,
            }),
            ClauseFail::Stopped(why) => SameChecked::Stopped(why),
        }
    }
}

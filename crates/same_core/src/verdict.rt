// What `same` ends with.
use crate::pairs::PairFail;
use cdcl_solver::Log;
use command_core::Stop;

/// What `same` says of two graphs.
#[derive(Debug, Drop)]
pub enum Same {
    /// All outputs of the two graphs agree for all inputs, and the certificate was written.
    Equal,
    /// Inputs, the first one first, on which some output differs.
    Differs { inputs: Vec<bool> },
    /// As many lemmas as there may be conflicts, and beside them the goals that were refuted before the one in hand.
    Spent { lemmas: u64, goal: u64, log: Log },
    /// The graphs haven't as many inputs, or not as many outputs.
    Shapes,
    /// There is no such answer.
    Stopped(Stop),
}

impl From<PairFail> for Same {
    ghost use Rattle.std.specs.Prelude.{◌≡◌};
    ghost use Rattle.same_core.specs.Answers.{same_of_pair};

    ghost from_gives = { λ fail answer. answer ≡ same_of_pair fail };

    fn from(fail: PairFail) -> Self {
        match fail {
            PairFail::Shapes => Same::Shapes,
            PairFail::Stopped(why) => Same::Stopped(why),
        }
    }
}

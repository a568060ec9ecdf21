// Why the lines of a clause certificate aren't taken.
use command_core::Stop;
use graph_core::Memory;

/// Why a line of a clause certificate is refused.
#[derive(Clone, Copy, Debug, PartialEq, Eq)]
pub enum ClauseWhy {
    /// No line has this text, or none stands where one must.
    Text,
    /// A number is out of range: of the cut, of a pair's literal, or of a clause's variable.
    Range,
    /// The clause doesn't follow from the live ones by unit propagation.
    NotImplied,
    /// No live clause has the set of the one to be deleted.
    NoSuchClause,
}

/// Why the lines of a clause certificate aren't lawful, or don't show each goal.
#[derive(Clone, Copy, Debug, PartialEq, Eq)]
pub enum ClauseFail {
    /// The line with this number, from 1, is refused.
    Line { line: u64, why: ClauseWhy },
    /// The least column with a goal that no added clause shows.
    Goals { column: u32 },
    /// A failed read, a length, or out of memory.
    Stopped(Stop),
}

impl From<Memory> for ClauseFail {
    ghost use Rattle.std.specs.Prelude.{◌≡◌};
    ghost use Rattle.command_core.specs.declared.stop.Stop.TheVariants as stop;
    ghost use Rattle.clause_judge.specs.declared.fail.ClauseFail.TheVariants as fail;

    ghost from_gives = { λ _ answer. answer ≡ fail.Stopped stop.Memory };

    fn from(_: Memory) -> Self {
        ClauseFail::Stopped(Stop::Memory)
    }
}

// Why the lines of an algebra certificate aren't taken.
use command_core::Stop;
use graph_core::Memory;

/// Why a line of an algebra certificate is refused.
#[derive(Clone, Copy, Debug, PartialEq, Eq)]
pub enum AlgebraWhy {
    /// No line has this text, or none stands where one must, or one stands where none may.
    Text,
    /// A number is out of range.
    Range,
    /// The new id doesn't exceed those of gates and columns and every one introduced before.
    Id,
    /// The first operand that isn't live.
    NoSuchLine(u64),
    /// Fewer clauses than this number were added, so none has it.
    NoSuchClause(u64),
    /// Some assignment tells the stated polynomial from what the rule names.
    NotEqual,
    /// Some assignment tells the closing line from the specification.
    NotSpec,
}

/// Why the lines of an algebra certificate aren't lawful, or don't close.
#[derive(Clone, Copy, Debug, PartialEq, Eq)]
pub enum AlgebraFail {
    /// The line with this number, from 1, is refused.
    Line { line: u64, why: AlgebraWhy },
    /// A failed read, a length, or out of memory.
    Stopped(Stop),
}

impl From<Memory> for AlgebraFail {
    ghost use Rattle.std.specs.Prelude.{◌≡◌};
    ghost use Rattle.command_core.specs.declared.stop.Stop.TheVariants as stop;
    ghost use Rattle.algebra_judge.specs.declared.fail.AlgebraFail.TheVariants as fail;

    ghost from_gives = { λ _ answer. answer ≡ fail.Stopped stop.Memory };

    fn from(_: Memory) -> Self {
        AlgebraFail::Stopped(Stop::Memory)
    }
}

// A desk: the slots in which files are opened, read and written.
ghost use Rattle.std.specs.Prelude.{◌≡◌, true, length, take, IfOk, OnOk, OnErr};
ghost use Rattle.std.specs.Io.{ReadsAtMost};
ghost use Rattle.std.specs.Io.KnownBytes.{ReadConsumes};
ghost use Rattle.mv_desk.specs.View.{View, IsSame, KeepsTelling, OpensFiles};
ghost use Rattle.mv_desk.specs.Calls.{Creates, HasReadCause, HasWriteCause, Opens, ReadsOnly, TakesSome, WritesTo};

use crate::Slot;
use thiserror::Error;

/// The outside refused. A count of faults says so too, and no slot and no file changed.
#[derive(Clone, Copy, Debug, PartialEq, Eq, Error)]
#[error("the outside refused")]
pub struct Failed;

/// The outside: files by slots, a count of opened files, and two counts of faults. No count falls.
pub trait Desk {
    /// What it tells of the outside.
    ghost seen: { Self → View };

    /// Opens a file for reading. It alone counts as opened, failed or not.
    fn open_file(&mut self, slot: Slot, name: &str) -> Result<(), Failed>
        ensures opens { OnOk result (Opens slot name.now (seen self.old) (seen self.new)) }
        ensures failed { OnErr result (IsSame (seen self.old) (seen self.new)) }
        ensures cause { HasReadCause (seen self.old) (seen self.new) result }
        ensures counted { OpensFiles 1 (seen self.old) (seen self.new) }
        ensures tells { KeepsTelling (seen self.old) (seen self.new) };

    /// Reads bytes to the front of a buffer. 0 for a buffer that isn't empty is the end of the input.
    fn read(&mut self, slot: Slot, into: &mut [u8]) -> Result<usize, Failed>
        requires { (seen self.old).reads slot ≡ true }
        ensures bound { ReadsAtMost result into.new }
        ensures bytes { ReadConsumes ((seen self.old).left slot) ((seen self.new).left slot) result into.new }
        ensures only { ReadsOnly slot (seen self.old) (seen self.new) }
        ensures failed { OnErr result (IsSame (seen self.old) (seen self.new)) }
        ensures cause { HasReadCause (seen self.old) (seen self.new) result }
        ensures tells { KeepsTelling (seen self.old) (seen self.new) };

    /// Makes an empty file, in place of one of that name, and opens it for writing.
    fn create_file(&mut self, slot: Slot, name: &str) -> Result<(), Failed>
        ensures creates { OnOk result (Creates slot name.now (seen self.old) (seen self.new)) }
        ensures failed { OnErr result (IsSame (seen self.old) (seen self.new)) }
        ensures cause { HasWriteCause (seen self.old) (seen self.new) result }
        ensures tells { KeepsTelling (seen self.old) (seen self.new) };

    /// Writes the front of a piece, and says how much of it.
    fn write(&mut self, slot: Slot, piece: &[u8]) -> Result<usize, Failed>
        requires { (seen self.old).writes slot ≡ true }
        ensures bound { IfOk result (λ taken. TakesSome taken (length piece.now)) }
        ensures writes { IfOk result (λ taken. WritesTo slot (take taken piece.now) (seen self.old) (seen self.new)) }
        ensures failed { OnErr result (IsSame (seen self.old) (seen self.new)) }
        ensures cause { HasWriteCause (seen self.old) (seen self.new) result }
        ensures tells { KeepsTelling (seen self.old) (seen self.new) };
}

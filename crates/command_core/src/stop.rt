// Why a call on files has no answer of its own.
use aiger_reader::ReadFail;
use graph_core::Memory;
use mv_desk::Slot;

/// Why a call on files has no answer of its own: what all commands have in common.
#[derive(Clone, Copy, Debug, PartialEq, Eq)]
pub enum Stop {
    /// The file of this slot spells no graph: its first refusal, a `Text`, `Header` or `Graph`.
    Graph { slot: Slot, why: ReadFail },
    /// Opening or reading a file failed.
    ReadFault,
    /// Creating or writing a file failed.
    WriteFault,
    /// The file of this slot, or a line of it, is longer than its limit, and no refusal comes before that.
    TooLong(Slot),
    Memory,
}

impl Stop {
    ghost use Rattle.std.specs.Prelude.{◌≡◌};
    ghost use Rattle.command_core.specs.Stopping.{stop_of_read};

    // No graph was read in this slot.
    pub(crate) fn of_read(slot: Slot, fail: ReadFail) -> Self
        ensures { result ≡ stop_of_read slot fail }
    {
        match fail {
            ReadFail::Fault => Stop::ReadFault,
            ReadFail::TooLong => Stop::TooLong(slot),
            ReadFail::Memory => Stop::Memory,
            why => Stop::Graph { slot, why },
        }
    }
}

impl From<Memory> for Stop {
    ghost use Rattle.std.specs.Prelude.{◌≡◌};
    ghost use Rattle.command_core.specs.declared.stop.Stop.TheVariants as stop;

    ghost from_gives = { λ _ why. why ≡ stop.Memory };

    fn from(_: Memory) -> Self {
        Stop::Memory
    }
}

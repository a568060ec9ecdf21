// Gates in groups that stand next to each other.
use graph_core::Gate;
use std::marker::Model;

/// Gates in the order in which they are tried, and the groups that they are tried in.
#[derive(Debug, Drop)]
pub(crate) struct Arrangement {
    pub(crate) gates: Vec<Gate>,
    pub(crate) parts: Vec<Part>,
}

/// The gates at the places from `start` on, before `end`.
#[derive(Clone, Copy, Debug)]
pub(crate) struct Part {
    pub(crate) start: usize,
    pub(crate) end: usize,
}

impl Model for Arrangement {
    ghost use Rattle.slice_planner.specs.Arranged.{AreWithin, Arranged, arranged};

    ghost Value = { Arranged };

    ghost view = { λ a. arranged a.gates.items a.parts.items };

    ghost invariant = { λ a. AreWithin a.gates.items a.parts.items };
}

impl Arrangement {
    ghost use Rattle.std.specs.Prelude.{◌≡◌, ◌<◌, length, slice_get, Some};
    ghost use Rattle.slice_planner.specs.Arranged.{groups_in};

    /// How many groups there are.
    pub(crate) fn len(&self) -> usize
        ensures { result ≡ length (groups_in self.now) }
    {
        self.parts.len()
    }

    /// The gates of a group.
    pub(crate) fn group(&self, place: usize) -> &[Gate]
        requires { place < length (groups_in self.now) }
        ensures { slice_get (groups_in self.now) place ≡ Some result.now }
    {
        let part = self.parts[place];
        &self.gates[part.start..part.end]
    }
}

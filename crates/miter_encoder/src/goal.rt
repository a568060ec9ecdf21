// A goal, and lists of goals.
ghost use Rattle.std.specs.Prelude.{◌≡◌, [], ◌∷◌, ◌++◌, OnErr, OnOk};

use clause_core::Clause;
use graph_core::Memory;
use std::alloc::Global;
use std::marker::Model;

/// A goal of a replaced column: a clause, unless a constant that is true has met it.
#[derive(Debug, Drop)]
pub struct Goal {
    pub column: u32,
    pub clause: Clause,
    pub met: bool,
}

/// The goals of replaced columns.
#[derive(Debug, Drop)]
pub struct Goals {
    goals: Vec<Goal>,
}

impl Model for Goals {
    ghost use Rattle.std.specs.Prelude.{List};
    ghost use Rattle.miter_encoder.specs.declared.goal.Goal.{Goal as GoalValue};

    ghost Value = { List GoalValue };

    ghost view = { λ s. s.goals.items };
}

impl Goals {
    pub(crate) fn new(alloc: Global) -> Goals
        ensures { result ≡ [] }
    {
        Goals {
            goals: Vec::new(alloc),
        }
    }

    pub(crate) fn push(&mut self, goal: Goal) -> Result<(), Memory>
        ensures ok { OnOk result (self.new ≡ self.old ++ goal ∷ []) }
        ensures err { OnErr result (self.new ≡ self.old) }
    {
        match self.goals.push(goal) {
            Ok(()) => Ok(()),
            Err(_) => Err(Memory),
        }
    }

    pub fn as_slice(&self) -> &[Goal]
        ensures { result.now ≡ self.now }
    {
        &self.goals
    }
}

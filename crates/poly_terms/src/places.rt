// Numbers of terms by variable.
ghost use Rattle.std.specs.Prelude.{◌≡◌, ◌≢◌, ◌<◌, ℕ, [], ◌∷◌, OnOk, get_or, length};
ghost use Rattle.poly_terms.specs.Indexed.{Enters};

use crate::numbers::Numbers;
use std::alloc::{AllocError, Global};
use std::marker::Model;
use std::mem;

/// For each variable numbers of terms, in any order; some may stand there twice.
#[derive(Debug, Drop)]
pub(crate) struct Places {
    alloc: Global,
    by_variable: Vec<Numbers>,
}

impl Model for Places {
    ghost use Rattle.std.specs.Prelude.{List, ℕ};

    ghost Value = { List (List ℕ) };

    ghost view = { λ p. p.by_variable.items };
}

impl Places {
    pub(crate) fn new(alloc: Global) -> Places
        ensures { result ≡ [] }
    {
        Places {
            alloc,
            by_variable: Vec::new(alloc),
        }
    }

    /// Puts a number at the places of variables.
    pub(crate) fn enter(&mut self, variables: &[u32], number: u64) -> Result<(), AllocError>
        ensures { OnOk result (Enters number variables.now self.old self.new) }
    {
        for v in variables {
            self.enter_one(*v, number)?;
        }
        Ok(())
    }

    fn enter_one(&mut self, v: u32, number: u64) -> Result<(), AllocError>
        ensures { OnOk result (Enters number (v ∷ []) self.old self.new) }
    {
        self.reach(v)?;
        self.by_variable[v as usize].push(number as usize)?;
        Ok(())
    }

    // Has a variable within, by as many with no number as it takes.
    fn reach(&mut self, v: u32) -> Result<(), AllocError>
        ensures same { OnOk result ((u : ℕ) → get_or self.new u [] ≡ get_or self.old u []) }
        ensures long { OnOk result (v < length self.new) }
    {
        for _ in self.by_variable.len()..=v as usize {
            self.by_variable.push(Numbers::new(self.alloc))?;
        }
        Ok(())
    }

    /// Takes out the numbers of a variable.
    pub(crate) fn take(&mut self, v: u32) -> Numbers
        ensures numbers { result ≡ get_or self.old v [] }
        ensures others { (u : ℕ) → u ≢ v → get_or self.new u [] ≡ get_or self.old u [] }
    {
        let none = Numbers::new(self.alloc);
        if v as usize >= self.by_variable.len() {
            return none;
        }
        mem::replace(&mut self.by_variable[v as usize], none)
    }
}

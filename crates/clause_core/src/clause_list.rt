// Lists of clauses.
ghost use Rattle.std.specs.Prelude.{◌≡◌, ◌<◌, [], ◌∷◌, ◌++◌, length, slice_index_or, take, OnOk, OnErr};

use crate::Clause;
use graph_core::Memory;
use std::alloc::Global;
use std::marker::Model;

/// Clauses in the order in which they came.
#[derive(Debug, Drop)]
pub struct ClauseList {
    clauses: Vec<Clause>,
}

impl Model for ClauseList {
    ghost use Rattle.std.specs.Prelude.{List, ℤ};

    ghost Value = { List (List ℤ) };

    ghost view = { λ s. s.clauses.items };
}

impl ClauseList {
    pub fn new(alloc: Global) -> ClauseList
        ensures { result ≡ [] }
    {
        ClauseList {
            clauses: Vec::new(alloc),
        }
    }

    pub fn push(&mut self, clause: Clause) -> Result<(), Memory>
        ensures ok { OnOk result (self.new ≡ self.old ++ clause ∷ []) }
        ensures err { OnErr result (self.new ≡ self.old) }
    {
        match self.clauses.push(clause) {
            Ok(()) => Ok(()),
            Err(_) => Err(Memory),
        }
    }

    /// Only the first clauses are left.
    pub fn truncate(&mut self, len: usize)
        ensures { self.new ≡ take len self.old }
    {
        self.clauses.truncate(len);
    }

    pub fn get(&self, i: usize) -> &Clause
        requires { i < length self.now }
        ensures { result.now ≡ slice_index_or self.now i result.now }
    {
        &self.clauses[i]
    }

    pub fn len(&self) -> usize
        ensures { result ≡ length self.now }
    {
        self.clauses.len()
    }
}

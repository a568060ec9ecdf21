// What stands, in the order in which it came, with the clause that led to each literal.
ghost use Rattle.std.specs.Prelude.{
  ◌≡◌,
  ◌≢◌,
  ◌*◌,
  ◌+◌,
  ◌-◌,
  ◌<◌,
  ◌≤◌,
  ℕ,
  [],
  ◌∷◌,
  ◌++◌,
  length,
  pos,
  slice_index,
  slice_index_or,
  take,
  IfOk,
  MatchBool,
  neg_ℤ,
};
ghost use Rattle.std.specs.List.{Contains};
ghost use Rattle.unit_prop.specs.Trail.{HasValue, IsOpen, IsLiteralUpTo, AreLiteralsUpTo, AreDistinctVariables, signed_variable};

use crate::literal::{code_of, negation, variable_of};
use graph_core::Memory;
use std::alloc::Global;
use std::marker::Model;

/// What stands, in the order in which it came. Its room is taken at the beginning: no variable stands twice.
#[derive(Drop)]
pub(crate) struct Trail {
    /// For the number of each literal: whether it is true or false, or neither.
    values: Vec<Option<bool>>,
    /// For each variable that stands: the clause that led to it, or `NONE`.
    reasons: Vec<u32>,
    /// The literals that stand.
    lits: Vec<i32>,
    /// For each of them how many had been visited when it came.
    visited: Vec<u32>,
}

impl Model for Trail {
    ghost use Rattle.std.specs.Prelude.{length, ◌-◌, ◌≤◌};
    ghost use Rattle.std.specs.Vec.{vec_capacity};
    ghost use Rattle.unit_prop.specs.Trail.{Stood, IsTrail, reasons_of};

    ghost Value = { Stood };

    ghost view = { λ s. record {
      max = length s.reasons.items - 1;
      lits = s.lits.items;
      reasons = reasons_of s.reasons.items s.lits.items;
      visited = s.visited.items;
    } };

    ghost invariant = { λ s. IsTrail s.values.items s.reasons.items s.lits.items s.visited.items ×
        (length s.reasons.items ≤ vec_capacity s.lits) × (length s.reasons.items ≤ vec_capacity s.visited) };
}

impl Trail {
    /// Nothing stands; the variables are those from 1 to `max`.
    pub(crate) fn new(alloc: Global, max: u32) -> Result<Trail, Memory>
        requires { max < 2147483648 }
        ensures { IfOk result (λ t. t ≡ record { max = max; lits = []; reasons = []; visited = [] }) }
    {
        let variables = max as usize + 1;
        Ok(Trail {
            values: vec![in alloc; None; 2 * variables]?,
            reasons: vec![in alloc; u32::MAX; variables]?,
            lits: Vec::with_capacity(alloc, variables)?,
            visited: Vec::with_capacity(alloc, variables)?,
        })
    }

    /// How many literals stand.
    pub(crate) fn len(&self) -> u32
        ensures value { result ≡ length self.now.lits }
        ensures bound { result ≤ self.now.max + 1 }
        ensures even { (length self.now.reasons ≡ result) × (length self.now.visited ≡ result) }
    {
        self.lits.len() as u32
    }

    pub(crate) fn lits(&self) -> &[i32]
        ensures value { result.now ≡ self.now.lits }
        ensures within { AreLiteralsUpTo self.now.max self.now.lits }
        ensures apart { AreDistinctVariables self.now.lits }
    {
        self.lits.as_slice()
    }

    /// The literal at a place of the trail.
    pub(crate) fn lit(&self, at: u32) -> i32
        requires { at < length self.now.lits }
        ensures value { result ≡ slice_index_or self.now.lits at (pos 0) }
        ensures within { IsLiteralUpTo self.now.max result }
        ensures small { self.now.max < 2147483648 }
    {
        self.lits[at as usize]
    }

    /// How many literals had been visited when the literal at a place of the trail came.
    pub(crate) fn visited(&self, at: u32) -> u32
        requires { at < length self.now.lits }
        ensures { result ≡ slice_index self.now.visited at }
    {
        self.visited[at as usize]
    }

    /// Whether a literal is true or false.
    pub(crate) fn value(&self, lit: i32) -> Option<bool>
        requires { IsLiteralUpTo self.now.max lit }
        ensures value { HasValue self.now.lits lit result }
        ensures once { Contains self.now.lits lit → Contains self.now.lits (neg_ℤ lit) → ⊥ }
    {
        self.values[code_of(lit) as usize]
    }

    pub(crate) fn is_true(&self, lit: i32) -> bool
        requires { IsLiteralUpTo self.now.max lit }
        ensures { MatchBool result (Contains self.now.lits lit) (Contains self.now.lits lit → ⊥) }
    {
        match self.value(lit) {
            Some(value) => value,
            None => false,
        }
    }

    pub(crate) fn is_false(&self, lit: i32) -> bool
        requires { IsLiteralUpTo self.now.max lit }
        ensures { MatchBool result (Contains self.now.lits (neg_ℤ lit)) (Contains self.now.lits (neg_ℤ lit) → ⊥) }
    {
        match self.value(lit) {
            Some(value) => !value,
            None => false,
        }
    }

    /// The clause that led to a variable which stands.
    pub(crate) fn reason(&self, var: u32) -> u32
        requires { var ≤ self.now.max }
        ensures { (i : ℕ) → i < length self.now.lits → signed_variable (slice_index_or self.now.lits i (pos 0)) ≡ var →
            result ≡ slice_index self.now.reasons i }
    {
        self.reasons[var as usize]
    }

    /// Whether neither literal of a variable stands.
    pub(crate) fn is_open(&self, var: u32) -> bool
        requires some { 0 < var }
        requires within { var ≤ self.now.max }
        ensures { MatchBool result
            ((i : ℕ) → i < length self.now.lits → signed_variable (slice_index_or self.now.lits i (pos 0)) ≢ var)
            ((i : ℕ) × (i < length self.now.lits) × (signed_variable (slice_index_or self.now.lits i (pos 0)) ≡ var)) }
    {
        self.values[2 * var as usize].is_none()
    }

    /// A literal comes to stand.
    pub(crate) fn push(&mut self, lit: i32, reason: u32, visited: u32)
        requires lit { IsLiteralUpTo self.old.max lit }
        requires open { IsOpen self.old.lits lit }
        ensures { self.new ≡ record {
          max = self.old.max;
          lits = self.old.lits ++ lit ∷ [];
          reasons = self.old.reasons ++ reason ∷ [];
          visited = self.old.visited ++ visited ∷ [];
        } }
    {
        self.values[code_of(lit) as usize] = Some(true);
        self.values[code_of(negation(lit)) as usize] = Some(false);
        self.reasons[variable_of(lit) as usize] = reason;
        let _ = self.lits.push(lit);
        let _ = self.visited.push(visited);
    }

    /// The last literal stands no longer.
    pub(crate) fn pop(&mut self)
        requires { 0 < length self.old.lits }
        ensures { self.new ≡ record {
          max = self.old.max;
          lits = take (length self.old.lits - 1) self.old.lits;
          reasons = take (length self.old.lits - 1) self.old.reasons;
          visited = take (length self.old.lits - 1) self.old.visited;
        } }
    {
        let last = self.lits.len() - 1;
        let lit = self.lits[last];
        self.values[code_of(lit) as usize] = None;
        self.values[code_of(negation(lit)) as usize] = None;
        self.lits.truncate(last);
        self.visited.truncate(last);
    }

    /// Only the first literals still stand.
    pub(crate) fn truncate(&mut self, len: u32)
        requires { len ≤ length self.old.lits }
        ensures { self.new ≡ record {
          max = self.old.max;
          lits = take len self.old.lits;
          reasons = take len self.old.reasons;
          visited = take len self.old.visited;
        } }
    {
        let mut standing = self.len();
        while standing > len {
            self.pop();
            standing -= 1;
        }
    }
}

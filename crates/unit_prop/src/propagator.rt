// Clauses, and what stands over them.
ghost use Rattle.std.specs.Prelude.{◌≡◌, ◌≢◌, ◌↔◌, ◌<◌, ◌≤◌, ◌^◌, [], ◌∷◌, length, neg_ℤ, ℤ, IfOk, IfSome, IsFalse, MatchOption, OnErr, None, IsNone, IsSome, IsTrue, Some};
ghost use Rattle.std.specs.List.{Contains};
ghost use Rattle.clause_core.specs.Clause.{Clause as Literals, IsClause, IsSubset};
ghost use Rattle.clause_core.specs.UnitPropagation.{IsRefuted};
ghost use Rattle.unit_prop.specs.Trail.{IsLiteralUpTo, HasValue};
ghost use Rattle.unit_prop.specs.Standing.{
  Standing,
  IsSound,
  HasNoAssumption,
  StandsAlone,
  IsMark,
  Propagates,
  IsFound,
  Assumes,
  AddsClause,
  RemovesClause,
  IsReasonOf,
  HasSetAt,
  clause_at,
  live_of,
  standing_with,
  standing_more,
  back_at,
};

use crate::assumed::Assumed;
use crate::ground::{forget, len_of, make_room, stand, stand_all};
use crate::kept::Kept;
use crate::near::visit_near;
use crate::reference::{Mark, Ref};
use crate::trail::Trail;
use crate::visits::visit_all;
use crate::watches::{NONE, Watches};
use clause_core::Clause;
use graph_core::Memory;
use std::alloc::Global;
use std::marker::Model;

/// Clauses, and what stands by assumption and by unit propagation over them.
#[derive(Drop)]
pub struct Propagator {
    alloc: Global,
    /// The clauses by reference; None for one that was removed.
    clauses: Vec<Kept>,
    /// Those of fewer than two literals, which nothing watches.
    shorts: Vec<u32>,
    /// Two watches for each other one, also for one that was removed, until propagation meets them.
    watches: Watches,
    trail: Trail,
    /// How many literals of the trail have been visited.
    head: u32,
    /// How many literals of unit clauses it begins with.
    units: u32,
    /// A clause that is false under these.
    refuted: Option<u32>,
}

impl Model for Propagator {
    ghost use Rattle.unit_prop.specs.Standing.{Standing};
    ghost use Rattle.unit_prop.specs.Ground.{IsPropagator, standing_of};

    ghost Value = { Standing };

    ghost view = { λ s. standing_of s.clauses.items s.trail s.units };

    ghost invariant = { λ s. IsPropagator s.clauses.items s.shorts.items s.watches s.trail s.head s.units s.refuted };
}

impl Propagator {
    /// No clauses, over the variables from 1 to the greatest one.
    pub fn new(alloc: Global, greatest: u32) -> Result<Propagator, Memory>
        requires { greatest < 2 ^ 31 }
        ensures { IfOk result (λ p. p ≡ record {
          clauses = [];
          trail = record { greatest = greatest; literals = []; reasons = [] };
          units = 0;
        }) }
    {
        Ok(Propagator {
            alloc,
            clauses: Vec::new(alloc),
            shorts: Vec::new(alloc),
            watches: Watches::new(alloc, greatest)?,
            trail: Trail::new(alloc, greatest)?,
            head: 0,
            units: 0,
            refuted: None,
        })
    }

    /// One more clause. Only the literals of unit clauses stand after it.
    pub fn add(&mut self, clause: &Clause) -> Result<Ref, Memory>
        requires within { (l : ℤ) → Contains clause.now l → IsLiteralUpTo self.old.trail.greatest l }
        ensures ok { IfOk result (λ r. AddsClause self.old clause.now r self.new) }
        ensures few { IfOk result (λ r. r < 2 ^ 31) }
        ensures err { OnErr result (self.new ≡ self.old) }
    {
        let own = Kept::of(self.alloc, clause)?;
        make_room(&mut self.clauses, &mut self.shorts, &mut self.watches)?;
        let units = self.units;
        self.trail.truncate(units);
        self.head = 0;
        let place = self.clauses.len() as u32;
        let _ = self.clauses.push(own);
        let lits = clause.lits();
        if lits.len() < 2 {
            let _ = self.shorts.push(place);
            stand(&self.clauses, &mut self.trail, &mut self.refuted, place);
            self.units = self.trail.len();
            return Ok(Ref { place });
        }
        self.watches.hang(2 * place, lits[0]);
        self.watches.hang(2 * place + 1, lits[1]);
        Ok(Ref { place })
    }

    /// One more clause, two of whose literals are not false: it says nothing yet, and what stands still does.
    pub fn add_open(&mut self, clause: &Clause, first: i32, second: i32) -> Result<Ref, Memory>
        requires within { (l : ℤ) → Contains clause.now l → IsLiteralUpTo self.old.trail.greatest l }
        requires two { Contains clause.now first × Contains clause.now second × (first ≢ second) }
        requires open { (Contains self.old.trail.literals (neg_ℤ first) → ⊥) ×
            (Contains self.old.trail.literals (neg_ℤ second) → ⊥) }
        ensures ok { IfOk result (λ r. (r ≡ length self.old.clauses) × (self.new ≡ standing_more self.old clause.now)) }
        ensures err { OnErr result (self.new ≡ self.old) }
    {
        let _distinct = clause.lits();
        let own = Kept::of(self.alloc, clause)?;
        make_room(&mut self.clauses, &mut self.shorts, &mut self.watches)?;
        let place = self.clauses.len() as u32;
        let _ = self.clauses.push(own);
        self.watches.hang(2 * place, first);
        self.watches.hang(2 * place + 1, second);
        Ok(Ref { place })
    }

    /// One clause less. Only the literals of unit clauses stand after it.
    pub fn remove(&mut self, reference: Ref)
        requires live { IsSome (clause_at self.old.clauses reference) }
        ensures { RemovesClause self.old reference self.new }
    {
        let place = reference.place;
        let len = len_of(&self.clauses, place);
        self.head = 0;
        if len < 2 {
            self.clauses[place as usize] = Kept::gone();
            forget(&mut self.shorts, place);
            self.trail.truncate(0);
            self.refuted = None;
            stand_all(
                &self.clauses,
                &self.shorts,
                &mut self.trail,
                &mut self.refuted,
            );
            self.units = self.trail.len();
            return;
        }
        let units = self.units;
        self.trail.truncate(units);
        self.clauses[place as usize] = Kept::gone();
    }

    /// Lets each consequence of what stands stand, or gives a clause that is false.
    pub fn propagate(&mut self) -> Option<Ref>
        ensures grows { Propagates self.old self.new }
        ensures found { IsFound self.old self.new result }
        ensures sound { IsSound self.new }
    {
        if let Some(place) = self.refuted {
            return Some(Ref { place });
        }
        let conflict = visit_all(
            &self.clauses,
            &mut self.watches,
            &mut self.trail,
            &mut self.head,
        );
        if let Some(place) = conflict {
            return Some(Ref { place });
        }
        None
    }

    /// Only `Fresh` changes anything.
    pub fn assume(&mut self, lit: i32) -> Assumed
        requires { IsLiteralUpTo self.old.trail.greatest lit }
        ensures stands { Assumes self.old lit result self.new }
        ensures sound { IsSound self.old }
    {
        match self.trail.value(lit) {
            Some(true) => Assumed::Known,
            Some(false) => Assumed::Opposed,
            None => {
                let head = self.head;
                self.trail.push(lit, NONE, head);
                Assumed::Fresh
            }
        }
    }

    /// How many literals stand.
    pub fn mark(&self) -> Mark
        ensures count { result ≡ length self.now.trail.literals }
        ensures mark { IsMark self.now result }
        ensures sound { IsSound self.now }
    {
        let _units = self.units;
        Mark {
            count: self.trail.len(),
        }
    }

    /// What stood at the mark stands, and nothing else.
    pub fn back_to(&mut self, mark: Mark)
        requires { IsMark self.old mark }
        ensures { self.new ≡ back_at self.old mark }
    {
        if mark.count < self.trail.len() {
            self.head = self.trail.visited(mark.count);
            self.trail.truncate(mark.count);
        }
    }

    /// Whether a live clause may be within the clause of two literals. False only where none is; true also where one of
    /// the two is no longer open, or too many clauses watch the first one.
    pub fn may_have_within(&self, one: i32, other: i32) -> bool
        requires one { IsLiteralUpTo self.now.trail.greatest one }
        requires other { IsLiteralUpTo self.now.trail.greatest other }
        ensures { IsFalse result → (c : Literals) → Contains (live_of self.now.clauses) c → ¬ (IsSubset c (one ∷ other ∷ [])) }
    {
        if let Some(_) = self.refuted {
            return true;
        }
        if let Some(_) = self.trail.value(one) {
            return true;
        }
        if let Some(_) = self.trail.value(other) {
            return true;
        }
        self.watches.may_pair(one, other)
    }

    /// Whether a chain of a few clauses refutes some literals: of those that watch their negations, or the negation of
    /// what they lead to of some variables, which is appended. True only where one does. What stands says nothing here.
    pub fn is_refuted_near(&self, vars: &[u32], lits: &mut Vec<i32>) -> Result<bool, Memory>
        ensures { IfOk result (λ found. IsTrue found → IsRefuted (live_of self.now.clauses) lits.old.items) }
    {
        visit_near(&self.clauses, &self.watches, vars, lits)
    }

    /// Whether a literal is true or false, or neither.
    pub fn value(&self, lit: i32) -> Option<bool>
        requires { IsLiteralUpTo self.now.trail.greatest lit }
        ensures { HasValue self.now.trail.literals lit result }
    {
        self.trail.value(lit)
    }

    /// What stands, in the order in which it came.
    pub fn trail(&self) -> &[i32]
        ensures value { result.now ≡ self.now.trail.literals }
        ensures sound { IsSound self.now }
    {
        self.trail.lits()
    }

    /// The clause that led to a variable; None where it was assumed or is open.
    pub fn reason(&self, var: u32) -> Option<Ref>
        requires some { 0 < var }
        requires within { var ≤ self.now.trail.greatest }
        ensures { IsReasonOf self.now.trail var result }
    {
        if self.trail.is_open(var) {
            return None;
        }
        let place = self.trail.reason(var);
        if place == NONE {
            return None;
        }
        Some(Ref { place })
    }

    /// The live clause of a place, if it has this set.
    pub fn find_at(&self, place: u32, clause: &Clause) -> Option<Ref>
        ensures some { IfSome result (λ r. (r ≡ place) × HasSetAt self.now.clauses clause.now place) }
        ensures none { IsNone result → ¬ (HasSetAt self.now.clauses clause.now place) }
    {
        if (place as usize) < self.clauses.len() && is_at(&self.clauses, place, clause) {
            return Some(Ref { place });
        }
        None
    }

    /// The literals of the clause of a place, each once, rising, if it is live.
    pub fn get(&self, place: u32) -> Option<&[i32]>
        ensures value { MatchOption result (clause_at self.now.clauses place ≡ None)
            (λ c. clause_at self.now.clauses place ≡ Some c.now) }
        ensures clause { IfSome result (λ c. IsClause c.now) }
    {
        if (place as usize) < self.clauses.len() {
            return self.clauses[place as usize].lits();
        }
        None
    }

    /// The literals of a clause of the propagator, each once, rising.
    pub fn clause(&self, reference: Ref) -> &[i32]
        requires { IsSome (clause_at self.now.clauses reference) }
        ensures value { clause_at self.now.clauses reference ≡ Some result.now }
        ensures clause { IsClause result.now }
    {
        match self.clauses[reference.place as usize].lits() {
            Some(lits) => lits,
            None => unreachable!(),
        }
    }
}

fn is_at(clauses: &[Kept], place: u32, clause: &Clause) -> bool
    requires { place < length clauses.now }
    ensures { IsTrue result ↔ HasSetAt clauses.now clause.now place }
{
    match clauses[place as usize].lits() {
        None => false,
        Some(lits) => lits == clause.lits(),
    }
}

// What is known of a conflict, and the lemma that comes of it.
ghost use Rattle.std.specs.Prelude.{◌≡◌, ◌<◌, ◌≤◌, ◌^◌, ◌⊎◌, ℤ, neg_ℤ, length, IfOk, OnOk, IsSome, IsTrue, Some, ◌↔◌};
ghost use Rattle.std.specs.List.{Contains};
ghost use Rattle.unit_prop.specs.Standing.{Standing, IsSound, clause_at};
ghost use Rattle.cdcl_solver.specs.Analyses.{AnalysisView, IsAnalysis, IsSeen, IsFalseOrSeen, IsForcedBehind};
ghost use Rattle.cdcl_solver.specs.Analyses.{AreNeeded, Follows, HasStanding, IsLemmaOf, IsPlaceOf, IsResolved};
ghost use Rattle.cdcl_solver.specs.Analyses.{MarksClause, Refutes, SawClause, Sees};
ghost use Rattle.cdcl_solver.specs.Search.{IsConflictAt};
ghost use Rattle.unit_prop.specs.Trail.{signed_variable};

use crate::conflict::Conflict;
use crate::literal::{negation, variable};
use crate::marks::Marks;
use crate::order::Order;
use crate::room::Room;
use graph_core::Memory;
use std::alloc::Global;
use std::marker::Model;
use unit_prop::{Propagator, Ref};

/// What is known of a conflict while its reasons are resolved from the last one down.
#[derive(Debug, Drop)]
pub(crate) struct Analysis {
    /// how many literals stood before the last decision
    level: usize,
    /// whether each variable's literal is in the clause resolved so far, or was resolved away
    seen: Marks,
    /// where each variable of the last level stands; of other variables it says nothing
    places: Vec<usize>,
    /// the literals of the lemma from before the last level
    lits: Vec<i32>,
    /// the first place of the last level whose variable was seen
    lowest: usize,
}

impl Model for Analysis {
    ghost use Rattle.cdcl_solver.specs.Analyses.{AnalysisView};

    ghost Value = { AnalysisView };

    ghost view = { λ a. record {
      level = a.level;
      seen = a.seen;
      places = a.places.items;
      lits = a.lits.items;
      lowest = a.lowest;
    } };
}

impl Analysis {
    /// The analysis of a conflict, resolved until one literal of the last level is left.
    pub(crate) fn of(
        alloc: Global,
        propagator: &Propagator,
        max: u32,
        conflict: Conflict,
        room: &mut Room,
    ) -> Result<Analysis, Memory>
        requires conflict { IsConflictAt propagator.now conflict.clause conflict.level }
        requires max { propagator.now.trail.greatest ≡ max }
        ensures resolved { IfOk result (λ a. IsResolved propagator.now a) }
        ensures level { IfOk result (λ a. a.level ≡ conflict.level) }
    {
        let mut analysis = Analysis::new(alloc, propagator, max, conflict.level, room)?;
        analysis.mark(propagator, conflict.clause)?;
        analysis.resolve(propagator)?;
        Ok(analysis)
    }

    /// Moves the variables that were seen to the front of an order, the latest first.
    pub(crate) fn bump(&self, propagator: &Propagator, order: &mut Order)
        requires analysis { IsAnalysis propagator.now self.now }
        requires sound { IsSound propagator.now }
        requires order { order.old.greatest ≡ propagator.now.trail.greatest }
        ensures { order.new ≡ order.old }
    {
        for &lit in propagator.trail() {
            let var = variable(lit);
            if self.seen.has(var as usize) {
                order.bump(var);
            }
        }
    }

    /// The literals of the lemma, but those that follow from others of it. The room is given back.
    pub(crate) fn into_lits(
        self,
        alloc: Global,
        propagator: &Propagator,
        room: &mut Room,
    ) -> Result<Vec<i32>, Memory>
        requires resolved { IsResolved propagator.now self }
        requires sound { IsSound propagator.now }
        requires signed { propagator.now.trail.greatest < 2 ^ 31 }
        ensures { IfOk result (λ lits. IsLemmaOf propagator.now self lits.items) }
    {
        let last = propagator.trail()[self.lowest];
        let mut lits = self.needed(alloc, propagator)?;
        lits.push(negation(last))?;
        room.places = self.places;
        room.marks = self.seen;
        Ok(lits)
    }

    // The literals from before the last level that don't follow from others which were seen.
    fn needed(&self, alloc: Global, propagator: &Propagator) -> Result<Vec<i32>, Memory>
        requires sound { IsSound propagator.now }
        requires analysis { IsAnalysis propagator.now self.now }
        ensures { IfOk result (λ lits. AreNeeded propagator.now self.now lits.items) }
    {
        let mut needed = Vec::new(alloc);
        for &lit in &self.lits {
            if !self.follows(propagator, lit) {
                needed.push(lit)?;
            }
        }
        Ok(needed)
    }

    // Whether what was seen forces the negation of a literal of the lemma.
    fn follows(&self, propagator: &Propagator, lit: i32) -> bool
        requires sound { IsSound propagator.now }
        requires analysis { IsAnalysis propagator.now self.now }
        requires own { Contains self.now.lits lit }
        ensures { IsTrue result → Follows propagator.now self.now lit }
    {
        match propagator.reason(variable(lit)) {
            Some(reason) => self.saw(propagator, reason),
            None => false,
        }
    }

    // Whether all variables of a clause were seen.
    fn saw(&self, propagator: &Propagator, clause: Ref) -> bool
        requires sound { IsSound propagator.now }
        requires live { IsSome (clause_at propagator.now.clauses clause) }
        requires analysis { IsAnalysis propagator.now self.now }
        requires standing { HasStanding propagator.now clause }
        ensures { IsTrue result → SawClause propagator.now self.now clause }
    {
        for &lit in propagator.clause(clause) {
            if !self.seen.has(variable(lit) as usize) {
                return false;
            }
        }
        true
    }

    // Sees one literal that is false.
    fn see(&mut self, trail: &[i32], lit: i32) -> Result<(), Memory>
        requires seen { signed_variable lit < length self.old.seen }
        requires places { signed_variable lit < length self.old.places }
        ensures { OnOk result (Sees trail.now self.old self.new lit) }
    {
        let var = variable(lit) as usize;
        if self.seen.has(var) {
            return Ok(());
        }
        let place = self.places[var];
        if self.level <= place && stands_at(trail, place, lit) {
            self.lowest = self.lowest.min(place);
        } else {
            self.lits.push(lit)?;
        }
        self.seen.set(var);
        Ok(())
    }

    fn new(
        alloc: Global,
        propagator: &Propagator,
        max: u32,
        level: usize,
        room: &mut Room,
    ) -> Result<Analysis, Memory>
        requires sound { IsSound propagator.now }
        requires max { propagator.now.trail.greatest ≡ max }
        requires level { level ≤ length propagator.now.trail.literals }
        ensures analysis { IfOk result (λ a. IsAnalysis propagator.now a) }
        ensures level { IfOk result (λ a. a.level ≡ level) }
    {
        let size = max as usize + 1;
        let trail = propagator.trail();
        let mut places = room.take_places(alloc, size)?;
        for place in level..trail.len() {
            places[variable(trail[place]) as usize] = place;
        }
        Ok(Analysis {
            level,
            seen: room.take_marks(alloc, size)?,
            places,
            lits: Vec::new(alloc),
            lowest: trail.len(),
        })
    }

    // Sees the literals of a clause.
    fn mark(&mut self, propagator: &Propagator, clause: Ref) -> Result<(), Memory>
        requires sound { IsSound propagator.now }
        requires live { IsSome (clause_at propagator.now.clauses clause) }
        requires analysis { IsAnalysis propagator.now self.old }
        requires told { IsFalseOrSeen propagator.now self.old clause }
        ensures analysis { OnOk result (IsAnalysis propagator.now self.new) }
        ensures marks { OnOk result (MarksClause propagator.now self.old self.new clause) }
    {
        let trail = propagator.trail();
        for &lit in propagator.clause(clause) {
            self.see(trail, lit)?;
        }
        Ok(())
    }

    // Resolves with reasons from the last literal down, until one of the last level is left.
    fn resolve(&mut self, propagator: &Propagator) -> Result<(), Memory>
        requires sound { IsSound propagator.now }
        requires analysis { IsAnalysis propagator.now self.old }
        requires inside { self.old.lowest < length propagator.now.trail.literals }
        requires forced { IsForcedBehind propagator.now self.old.level }
        requires refutes { Refutes propagator.now self.old (length propagator.now.trail.literals) }
        ensures resolved { OnOk result (IsResolved propagator.now self.new) }
        ensures level { OnOk result (self.new.level ≡ self.old.level) }
    {
        let trail = propagator.trail();
        let mut place = trail.len();
        'walk: while self.lowest + 1 < place {
            place -= 1;
            let var = variable(trail[place]);
            if self.seen.has(var as usize) {
                if let Some(reason) = propagator.reason(var) {
                    self.mark(propagator, reason)?;
                }
            }
        }
        Ok(())
    }
}

// Whether a literal's variable stands at a place of the trail.
fn stands_at(trail: &[i32], place: usize, lit: i32) -> bool
    ensures { IsTrue result ↔ IsPlaceOf trail.now place lit }
{
    place < trail.len() && variable(trail[place]) == variable(lit)
}

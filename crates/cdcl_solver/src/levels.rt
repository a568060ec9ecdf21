// The moments of a search to which it goes back.
ghost use Rattle.std.specs.Prelude.{◌≡◌, ◌≢◌, ◌<◌, ◌^◌, ◌++◌, ◌∷◌, [], ℤ, neg_ℤ, None, Some, OnOk, OnErr, IfSome, IsFalse, IsSome, IsTrue, slice_set};
ghost use Rattle.std.specs.List.{Contains};
ghost use Rattle.clause_core.specs.Clause.{IsSubset};
ghost use Rattle.unit_prop.specs.Trail.{IsLiteralUpTo};
ghost use Rattle.unit_prop.specs.Standing.{Standing, IsSound, IsPropagated, StandsAlone, clause_at};
ghost use Rattle.cdcl_solver.specs.Levels.{IsStage, IsLast, Keeps, AreTwoOpen, IsOtherOpen};

use clause_core::Clause;
use graph_core::Memory;
use std::alloc::Global;
use unit_prop::{Mark, Propagator, Ref};

/// The moment at which only the literals of unit clauses stood, and those since at which every consequence did: after
/// the assumptions, and after each decision.
#[derive(Debug, Drop)]
pub(crate) struct Levels {
    base: Mark,
    marks: Vec<Mark>,
}

impl Levels {
    /// Those of a propagator in which only the literals of unit clauses stand.
    pub(crate) fn new(alloc: Global, propagator: &Propagator) -> Levels
        requires { StandsAlone propagator.now }
        ensures { IsStage propagator.now result.base result.marks.items }
    {
        Levels {
            base: propagator.mark(),
            marks: Vec::new(alloc),
        }
    }

    /// One more moment, which is now.
    pub(crate) fn push(&mut self, propagator: &Propagator) -> Result<(), Memory>
        requires stage { IsStage propagator.now self.old.base self.old.marks.items }
        requires settled { IsPropagated propagator.now }
        ensures { IsStage propagator.now self.new.base self.new.marks.items }
    {
        self.marks.push(propagator.mark())?;
        Ok(())
    }

    /// Back to where only the literals of unit clauses stand.
    pub(crate) fn restart(&mut self, propagator: &mut Propagator)
        requires { IsStage propagator.old self.old.base self.old.marks.items }
        ensures keeps { Keeps propagator.old propagator.new }
        ensures alone { StandsAlone propagator.new }
        ensures stage { IsStage propagator.new self.new.base self.new.marks.items }
    {
        self.marks.clear();
        propagator.back_to(self.base);
    }

    /// Back to the last moment, if there is one and the search does not go on anew; whether the assumptions stood then.
    pub(crate) fn resume(
        &mut self,
        propagator: &mut Propagator,
        assumptions: &[i32],
        anew: bool,
    ) -> bool
        requires stage { IsStage propagator.old self.old.base self.old.marks.items }
        requires within { (l : ℤ) → Contains assumptions.now l → IsLiteralUpTo propagator.old.trail.greatest l }
        ensures keeps { Keeps propagator.old propagator.new }
        ensures stage { IsStage propagator.new self.new.base self.new.marks.items }
        ensures resumed { IsTrue result → IsSound propagator.new × IsPropagated propagator.new
            × IsSubset assumptions.now propagator.new.trail.literals }
    {
        if anew {
            return false;
        }
        match self.last() {
            None => false,
            Some(mark) => {
                propagator.back_to(mark);
                let _now = propagator.mark();
                all_stand(propagator, assumptions)
            }
        }
    }

    /// One more clause: at the last moment at which two of its literals are open, or where only the literals of unit
    /// clauses stand.
    pub(crate) fn add(
        &mut self,
        propagator: &mut Propagator,
        clause: &Clause,
    ) -> Result<Ref, Memory>
        requires stage { IsStage propagator.old self.old.base self.old.marks.items }
        requires within { (l : ℤ) → Contains clause.now l → IsLiteralUpTo propagator.old.trail.greatest l }
        ensures greatest { propagator.new.trail.greatest ≡ propagator.old.trail.greatest }
        ensures stage { IsStage propagator.new self.new.base self.new.marks.items }
        ensures ok { OnOk result (propagator.new.clauses ≡ propagator.old.clauses ++ Some clause.now ∷ []) }
        ensures err { OnErr result (propagator.new.clauses ≡ propagator.old.clauses) }
    {
        if let Some(two) = self.back_up(propagator, clause) {
            let added = propagator.add_open(clause, two.0, two.1)?;
            return Ok(added);
        }
        self.add_anew(propagator, clause)
    }

    /// One more clause, where only the literals of unit clauses stand.
    pub(crate) fn add_anew(
        &mut self,
        propagator: &mut Propagator,
        clause: &Clause,
    ) -> Result<Ref, Memory>
        requires stage { IsStage propagator.old self.old.base self.old.marks.items }
        requires within { (l : ℤ) → Contains clause.now l → IsLiteralUpTo propagator.old.trail.greatest l }
        ensures greatest { propagator.new.trail.greatest ≡ propagator.old.trail.greatest }
        ensures stage { IsStage propagator.new self.new.base self.new.marks.items }
        ensures ok { OnOk result (propagator.new.clauses ≡ propagator.old.clauses ++ Some clause.now ∷ []) }
        ensures err { OnErr result (propagator.new.clauses ≡ propagator.old.clauses) }
    {
        let added = propagator.add(clause)?;
        self.marks.clear();
        self.base = propagator.mark();
        Ok(added)
    }

    /// One clause less, where only the literals of unit clauses stand.
    pub(crate) fn remove(&mut self, propagator: &mut Propagator, reference: Ref)
        requires { IsSome (clause_at propagator.old.clauses reference) }
        ensures clauses { propagator.new.clauses ≡ slice_set propagator.old.clauses reference None }
        ensures greatest { propagator.new.trail.greatest ≡ propagator.old.trail.greatest }
        ensures stage { IsStage propagator.new self.new.base self.new.marks.items }
    {
        propagator.remove(reference);
        self.marks.clear();
        self.base = propagator.mark();
    }

    // Back to the last moment at which two literals of a clause are open. None where there is no such moment.
    fn back_up(&mut self, propagator: &mut Propagator, clause: &Clause) -> Option<(i32, i32)>
        requires stage { IsStage propagator.old self.old.base self.old.marks.items }
        requires within { (l : ℤ) → Contains clause.now l → IsLiteralUpTo propagator.old.trail.greatest l }
        ensures keeps { Keeps propagator.old propagator.new }
        ensures stage { IsStage propagator.new self.new.base self.new.marks.items }
        ensures two { IfSome result (AreTwoOpen propagator.new.trail.literals clause.now) }
    {
        'back: while let Some(mark) = self.last() {
            propagator.back_to(mark);
            if let Some(two) = two_open(propagator, clause.lits()) {
                return Some(two);
            }
            let _ = self.marks.pop();
        }
        None
    }

    fn last(&self) -> Option<Mark>
        ensures { IsLast self.now.marks.items result }
    {
        let count = self.marks.len();
        if count == 0 {
            return None;
        }
        Some(self.marks[count - 1])
    }
}

/// Whether a literal stands.
pub(crate) fn stands(propagator: &Propagator, lit: i32) -> bool
    requires { IsLiteralUpTo propagator.now.trail.greatest lit }
    ensures there { IsTrue result → Contains propagator.now.trail.literals lit }
    ensures absent { IsFalse result → Contains propagator.now.trail.literals lit → ⊥ }
{
    // no literal stands beside its negation
    let _sound = propagator.mark();
    propagator.value(lit).unwrap_or(false)
}

// Two literals that are open.
fn two_open(propagator: &Propagator, lits: &[i32]) -> Option<(i32, i32)>
    requires within { (l : ℤ) → Contains lits.now l → IsLiteralUpTo propagator.now.trail.greatest l }
    ensures { IfSome result (AreTwoOpen propagator.now.trail.literals lits.now) }
{
    let first = other_open(propagator, lits, 0)?;
    let second = other_open(propagator, lits, first)?;
    Some((first, second))
}

// The first literal that is open and is not the one given.
fn other_open(propagator: &Propagator, lits: &[i32], other: i32) -> Option<i32>
    requires within { (l : ℤ) → Contains lits.now l → IsLiteralUpTo propagator.now.trail.greatest l }
    ensures { IfSome result (IsOtherOpen propagator.now.trail.literals lits.now other) }
{
    for &lit in lits {
        if lit != other {
            if let None = propagator.value(lit) {
                return Some(lit);
            }
        }
    }
    None
}

// Whether all of these stand.
fn all_stand(propagator: &Propagator, lits: &[i32]) -> bool
    requires within { (l : ℤ) → Contains lits.now l → IsLiteralUpTo propagator.now.trail.greatest l }
    ensures { IsTrue result → IsSubset lits.now propagator.now.trail.literals }
{
    for &lit in lits {
        if !stands(propagator, lit) {
            return false;
        }
    }
    true
}

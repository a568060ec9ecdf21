// The checker of a clause certificate.
ghost use Rattle.std.specs.Prelude.{◌≡◌, ◌↔◌, ◌<◌, ◌^◌, List, [], false, IfOk, IfSome, IsErrOf, IsNone, IsSome, OnErr, OnOk};
ghost use Rattle.std.specs.List.{All};
ghost use Rattle.clause_core.specs.Clause.{Clause as Literals, IsClauseInRange};
ghost use Rattle.clause_core.specs.Facts.{IsClauseFact};
ghost use Rattle.clause_core.specs.GateClauses.{AreGatesWithin, gate_clauses};
ghost use Rattle.clause_core.specs.Likeness.{AreSameSets};
ghost use Rattle.clause_core.specs.UnitPropagation.{IsRup};
ghost use Rattle.drup_checker.specs.Checking.{AddsRup, Deletes, IsLeastUnshown, IsNowhere, IsTightChainOf, Starts};
ghost use Rattle.clause_core.specs.KeptClauses.{AreEarlier, HaveTightChains};

use crate::fault::{AddFail, NoSuchClause};
use crate::keeps::Keeps;
use crate::least::least_unshown;
use crate::record::{Record, keep};
use crate::showing::show;
use crate::store::Store;
use clause_core::{Clause, ClauseList};
use graph_core::{Gate, Memory};
use miter_encoder::Goals;
use std::alloc::Global;
use std::marker::Model;

/// The live clauses of a clause certificate over some gates, which goals its added clauses have shown, and what is
/// kept of those clauses.
#[derive(Drop)]
pub struct Checker<'a> {
    alloc: Global,
    gates: &'a [Gate],
    goals: &'a Goals,
    store: Store,
    /// for each goal
    shown: Vec<bool>,
    keeps: Keeps,
    recorded: Record,
    /// how many clauses were added
    count: u64,
}

impl<'a> Model for Checker<'a> {
    ghost use Rattle.drup_checker.specs.Checking.{Checking, KeepsClauses, checking};

    ghost Value = { Checking };

    ghost view = { λ c. checking c.gates.now c.store c.goals.now c.shown.items c.keeps c.recorded.added c.recorded.uses.items c.count };

    ghost invariant = { λ c. KeepsClauses c.gates.now c.store c.goals.now c.shown.items c.keeps c.recorded.added c.recorded.uses.items c.count };
}

impl<'a> Checker<'a> {
    /// A checker of the clauses of some gates, whose variables are at most the greatest one.
    pub fn new(
        alloc: Global,
        max: u32,
        gates: &'a [Gate],
        goals: &'a Goals,
        keeps: Keeps,
    ) -> Result<Checker<'a>, Memory>
        requires small { max < 2 ^ 31 }
        requires within { AreGatesWithin max gates.now }
        ensures starts { IfOk result (λ c. (clauses : List Literals) × AreSameSets clauses (gate_clauses gates.entry.now) ×
            Starts gates.entry.now max clauses goals.entry.now keeps c) }
        ensures shown { IfOk result (λ c. All (λ b. b ≡ false) c.shown) }
    {
        let store = Store::new(alloc, max, gates)?;
        let shown = Vec::from_elem(alloc, false, goals.as_slice().len())?;
        Ok(Checker {
            alloc,
            gates,
            goals,
            store,
            shown,
            keeps,
            recorded: Record {
                added: ClauseList::new(alloc),
                uses: Vec::new(alloc),
            },
            count: 0,
        })
    }

    /// A line that adds the clause: it has to follow from the live ones.
    pub fn add(&mut self, clause: &Clause) -> Result<(), AddFail>
        requires in_range { IsClauseInRange self.old.max clause.now }
        ensures ok { OnOk result (AddsRup clause.now self.old self.new) }
        ensures not_implied { IsErrOf result AddFail.NotImplied ↔ ¬ (IsRup self.old.live clause.now) }
        ensures unchanged { OnErr result (self.new ≡ self.old) }
    {
        let found = uses_of(self.alloc, self.keeps, &mut self.store, clause)?;
        let Some(uses) = found else {
            return Err(AddFail::NotImplied);
        };
        let added = self.recorded.added.len();
        let used = self.recorded.uses.len();
        keep(self.alloc, self.keeps, &mut self.recorded, clause, uses)?;
        let number = self.count.saturating_add(1);
        match self.store.put(clause, number) {
            Ok(()) => {}
            Err(_) => {
                self.recorded.added.truncate(added);
                self.recorded.uses.truncate(used);
                return Err(AddFail::Memory);
            }
        }
        self.count = number;
        show(self.goals, clause, &mut self.shown);
        Ok(())
    }

    /// A line that deletes a clause with this set.
    pub fn delete(&mut self, clause: &Clause) -> Result<(), NoSuchClause>
        ensures ok { OnOk result (Deletes clause.now self.old self.new) }
        ensures err { OnErr result (IsNowhere clause.now self.old) }
        ensures unchanged { OnErr result (self.new ≡ self.old) }
    {
        if !self.store.take(clause) {
            return Err(NoSuchClause);
        }
        Ok(())
    }

    /// The added clauses in a tight chain for the clause, by their numbers from 1 in the order in which they were
    /// added; None exactly where it doesn't follow from the live ones. Nothing changes.
    pub fn chain(&mut self, clause: &Clause) -> Result<Option<Vec<u64>>, Memory>
        requires in_range { IsClauseInRange self.old.max clause.now }
        ensures some { IfOk result (λ numbers. IfSome numbers (λ n. IsTightChainOf self.old.numbered clause.now n.items)) }
        ensures none { IfOk result (λ numbers. IsNone numbers ↔ ¬ (IsRup self.old.live clause.now)) }
        ensures unchanged { self.new ≡ self.old }
    {
        self.store.chain(clause)
    }

    /// What was kept of the added clauses, where the checker isn't needed any more. Where chains are kept, each of
    /// these clauses has a tight chain of the gates' clauses and of earlier ones that its numbers name.
    pub fn into_record(self) -> Record
        ensures added { result.added ≡ self.entry.added }
        ensures uses { result.uses.items ≡ self.entry.uses }
        ensures facts { All (IsClauseFact self.entry.gates) self.entry.added }
        ensures chains { self.entry.keeps ≡ Keeps.Chains →
            HaveTightChains (gate_clauses self.entry.gates) [] self.entry.added self.entry.uses }
        ensures earlier { AreEarlier self.entry.uses }
    {
        self.recorded
    }

    /// The least column with a goal that is neither met nor shown.
    pub fn unshown(&self) -> Option<u32>
        ensures { IsLeastUnshown self.now.goals self.now.shown result }
    {
        least_unshown(self.goals.as_slice(), self.shown.as_slice())
    }
}

// The numbers of a tight chain for a clause that follows from the live ones, where they are kept, and none where they
// aren't; None where it doesn't follow.
fn uses_of(
    alloc: Global,
    keeps: Keeps,
    store: &mut Store,
    clause: &Clause,
) -> Result<Option<Vec<u64>>, Memory>
    requires { IsClauseInRange store.old.max clause.now }
    ensures some { IfOk result (λ numbers. IfSome numbers (λ n. keeps ≡ Keeps.Chains →
        IsTightChainOf store.old.numbered clause.now n.items)) }
    ensures follows { IfOk result (λ numbers. IsSome numbers ↔ IsRup store.old.live clause.now) }
    ensures err { OnErr result (IsRup store.old.live clause.now) }
    ensures kept { store.new ≡ store.old }
{
    match keeps {
        Keeps::Chains => store.chain(clause),
        Keeps::Nothing | Keeps::Clauses => {
            if store.implies(clause) {
                Ok(Some(Vec::new(alloc)))
            } else {
                Ok(None)
            }
        }
    }
}

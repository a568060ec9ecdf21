// The live clauses, each of which is found by a look into one chain.
ghost use Rattle.std.specs.Prelude.{◌≡◌, ◌↔◌, ◌+◌, ◌<◌, ◌^◌, ◌++◌, ◌∷◌, [], false, length, map, slice_index, IfOk, IfSome, IsNone, IsTrue, OnErr, OnOk, vec_capacity, vec_len};
ghost use Rattle.std.specs.List.{All, Any};
ghost use Rattle.clause_core.specs.Clause.{IsClause, IsClauseInRange, SameSet};
ghost use Rattle.clause_core.specs.ClauseLines.{Removes};
ghost use Rattle.clause_core.specs.GateClauses.{AreGatesWithin};
ghost use Rattle.clause_core.specs.UnitPropagation.{IsRup};
ghost use Rattle.drup_checker.specs.PlaceNumbers.{numbers_of};
ghost use Rattle.drup_checker.specs.Checking.{Held, HoldsGates, IsTightChainOf, LosesOne, added_numbers, held_more, held_with};

use crate::chains::{chain_of, find, unlink};
use crate::place_numbers::PlaceNumbers;
use crate::rup::is_rup;
use crate::tight::tight_chain;
use clause_core::{Clause, ClauseList};
use graph_core::{Gate, Memory};
use miter_encoder::gate_clauses_of;
use std::alloc::Global;
use std::marker::Model;
use unit_prop::Propagator;

/// The live clauses. Once so many places were given out, all is made anew over those that are live, so that memory is
/// in proportion to them and to the variables.
#[derive(Drop)]
pub(crate) struct Store {
    alloc: Global,
    max: u32,
    propagator: Propagator,
    /// where each chain begins
    heads: Vec<u32>,
    /// for each place of the propagator where it leads
    next: Vec<u32>,
    /// how many places there are before all is made anew
    most: usize,
    /// for each place the number of its clause, 0 for one that wasn't added
    numbers: PlaceNumbers,
}

impl Model for Store {
    ghost use Rattle.drup_checker.specs.PlaceNumbers.{numbers_of};
    ghost use Rattle.drup_checker.specs.Checking.{Held, held};
    ghost use Rattle.drup_checker.specs.Chains.{IsNumberedStore};
    ghost use Rattle.drup_checker.specs.PlaceNumbers.{numbers_of};

    ghost Value = { Held };

    ghost view = { λ s. held s.propagator (numbers_of s.numbers) };

    ghost invariant = { λ s. IsNumberedStore s.max s.propagator s.heads.items s.next.items (numbers_of s.numbers) };
}

impl Store {
    /// The clauses of some gates, which have no numbers. They are made gate by gate, so that no list stands beside the
    /// store.
    pub(crate) fn new(alloc: Global, max: u32, gates: &[Gate]) -> Result<Store, Memory>
        requires small { max < 2 ^ 31 }
        requires within { AreGatesWithin max gates.now }
        ensures { IfOk result (λ s. HoldsGates max gates.now s) }
    {
        let mut store = Store::empty(alloc, max, gates.len().saturating_mul(3))?;
        for gate in gates {
            let clauses = gate_clauses_of(alloc, &[*gate])?;
            store.append_all(&clauses)?;
        }
        Ok(store)
    }

    // No clauses, places for so many and as many again, and a chain for four places.
    fn empty(alloc: Global, max: u32, clauses: usize) -> Result<Store, Memory>
        requires { max < 2 ^ 31 }
        ensures { IfOk result (λ s. s ≡ record { max = max; live = []; numbered = [] }) }
    {
        let most = clauses
            .saturating_mul(2)
            .saturating_add(max as usize + 1024);
        let chains = most / 4;
        Ok(Store {
            alloc,
            max,
            propagator: Propagator::new(alloc, max)?,
            heads: vec![in alloc; 0; chains]?,
            next: Vec::new(alloc),
            most,
            numbers: PlaceNumbers::new(alloc),
        })
    }

    /// One clause more, with its number.
    pub(crate) fn put(&mut self, clause: &Clause, number: u64) -> Result<(), Memory>
        requires { IsClauseInRange self.old.max clause.now }
        ensures ok { OnOk result (self.new ≡ held_with self.old clause.now number) }
        ensures err { OnErr result (self.new ≡ self.old) }
    {
        if self.next.len() >= self.most {
            *self = self.renewed()?;
        }
        self.append(clause, number)
    }

    // The same clauses, without the places of those that were taken out.
    fn renewed(&self) -> Result<Store, Memory>
        ensures { IfOk result (λ s. s ≡ self.now) }
    {
        let mut new = Store::empty(self.alloc, self.max, self.len())?;
        for place in 0..self.next.len() {
            match self.propagator.get(place as u32) {
                Some(lits) => {
                    new.append_lits(lits, self.numbers.get(place))?;
                }
                None => {}
            }
        }
        Ok(new)
    }

    // How many clauses are live.
    fn len(&self) -> usize {
        let mut count = 0;
        for place in 0..self.next.len() {
            if self.propagator.get(place as u32).is_some() {
                count += 1;
            }
        }
        count
    }

    // The clauses of a list, which have no numbers.
    fn append_all(&mut self, clauses: &ClauseList) -> Result<(), Memory>
        requires { All (IsClauseInRange self.old.max) clauses.now }
        ensures { OnOk result (self.new ≡ held_more self.old clauses.now) }
    {
        for place in 0..clauses.len() {
            self.append(clauses.get(place), 0)?;
        }
        Ok(())
    }

    // The clause of some literals, each once, rising.
    fn append_lits(&mut self, lits: &[i32], number: u64) -> Result<(), Memory>
        requires range { IsClauseInRange self.old.max lits.now }
        requires clause { IsClause lits.now }
        ensures { OnOk result (self.new ≡ held_with self.old lits.now number) }
    {
        let clause = Clause::new(self.alloc, lits)?;
        // both rise, so the lists are the same
        let _lits = clause.lits();
        self.append(&clause, number)
    }

    fn append(&mut self, clause: &Clause, number: u64) -> Result<(), Memory>
        requires { IsClauseInRange self.old.max clause.now }
        ensures ok { OnOk result (self.new ≡ held_with self.old clause.now number) }
        ensures err { OnErr result (self.new ≡ self.old) }
    {
        // none of its literals is past 31 bits
        let _lits = clause.lits();
        reserve(&mut self.next)?;
        self.numbers.reserve()?;
        let chain = chain_of(clause, self.heads.len());
        let reference = self.propagator.add(clause)?;
        push(&mut self.next, self.heads[chain]);
        self.numbers.push(number);
        self.heads[chain] = reference.place() + 1;
        Ok(())
    }

    /// Takes out a clause with this set, if there is one.
    pub(crate) fn take(&mut self, clause: &Clause) -> bool
        ensures some { IsTrue result → Removes self.old.live clause.now self.new.live ×
            LosesOne clause.now self.old.numbered self.new.numbered × (self.new.max ≡ self.old.max) }
        ensures none { result ≡ false → (self.new ≡ self.old) × ¬ (Any (λ d. SameSet d clause.now) self.old.live) }
    {
        // a live clause of its set is the same list, and so in the same chain
        let _lits = clause.lits();
        let chain = chain_of(clause, self.heads.len());
        match find(self.heads[chain], &self.next, &self.propagator, clause) {
            None => false,
            Some(reference) => {
                unlink(&mut self.heads, &mut self.next, chain, reference.place());
                self.propagator.remove(reference);
                true
            }
        }
    }

    /// Whether the clause follows from those that are live.
    pub(crate) fn implies(&mut self, clause: &Clause) -> bool
        requires { IsClauseInRange self.old.max clause.now }
        ensures rup { IsTrue result ↔ IsRup self.old.live clause.now }
        ensures kept { self.new ≡ self.old }
    {
        is_rup(&mut self.propagator, clause)
    }

    /// The numbers of the added clauses in a tight chain of live ones, in the chain's order; None where the clause
    /// doesn't follow.
    pub(crate) fn chain(&mut self, clause: &Clause) -> Result<Option<Vec<u64>>, Memory>
        requires { IsClauseInRange self.old.max clause.now }
        ensures some { IfOk result (λ numbers. IfSome numbers (λ n. IsTightChainOf self.old.numbered clause.now n.items)) }
        ensures none { IfOk result (λ numbers. IsNone numbers ↔ ¬ (IsRup self.old.live clause.now)) }
        ensures err { OnErr result (IsRup self.old.live clause.now) }
        ensures kept { self.new ≡ self.old }
    {
        let Some(places) = tight_chain(self.alloc, self.max, &mut self.propagator, clause)? else {
            return Ok(None);
        };
        let added = added_at(self.alloc, &self.numbers, &places)?;
        Ok(Some(added))
    }
}

// The numbers at some places, but for those that are 0.
fn added_at(alloc: Global, numbers: &PlaceNumbers, places: &[u32]) -> Result<Vec<u64>, Memory>
    requires { All (λ r. r < length (numbers_of numbers.now)) places.now }
    ensures { IfOk result (λ out. out.items ≡ added_numbers (map (λ r. slice_index (numbers_of numbers.now) r) places.now)) }
{
    let mut added = Vec::new(alloc);
    for &place in places {
        let number = numbers.get(place as usize);
        if number > 0 {
            added.push(number)?;
        }
    }
    Ok(added)
}

fn reserve<T>(items: &mut Vec<T>) -> Result<(), Memory>
    ensures items { items.new.items ≡ items.old.items }
    ensures room { OnOk result (vec_len items.new < vec_capacity items.new) }
{
    items.try_reserve(1)?;
    Ok(())
}

fn push<T: Drop>(items: &mut Vec<T>, item: T)
    requires { vec_len items.old < vec_capacity items.old }
    ensures { items.new.items ≡ items.old.items ++ item ∷ [] }
{
    let _ = items.push(item);
}

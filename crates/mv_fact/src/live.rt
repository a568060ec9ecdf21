// Live facts by id, over a table that they own.
ghost use Rattle.std.specs.Prelude.{◌≡◌, ◌<◌, ◌↔◌, [], Some, None, IfOk, OnOk, OnErr, IfSome, IsSome, IsSomeAnd, IsErrOf, length, option_copied, slice_get};
ghost use Rattle.std.specs.List.{All};
ghost use Rattle.std.specs.Map.{values_of};
ghost use Rattle.mv_fact.specs.Facts.{fact_at, IsKept, ChangesAt, IsGrown};

use crate::{Fact, Grow, GrowFrom, InsertFail, NoSuchId};
use graph_core::Gate;
use indexmap::IndexMap;
use std::alloc::Global;
use std::marker::Model;

/// A table and facts by id, each of which belongs to the table and holds on every evaluation of the gates.
#[derive(Drop)]
pub struct Live<'a, F: Fact> {
    gates: &'a [Gate],
    table: F::Table,
    facts: IndexMap<u64, F>,
}

impl<'a, F: Fact> Model for Live<'a, F> {
    ghost use Rattle.std.specs.List.{All};
    ghost use Rattle.std.specs.Map.{values_of};
    ghost use Rattle.mv_fact.specs.Facts.{Facts, IsKept};

    ghost Value = { Facts F F.Table };

    ghost view = { λ s. record { gates = s.gates.now; table = s.table; entries = s.facts.entries } };

    ghost invariant = { λ s. All (IsKept F.belongs F.holds s.gates.now s.table) (values_of s.facts.entries) };
}

impl<'a, F: Fact> Live<'a, F> {
    /// No facts yet, over a list of gates and a table.
    pub fn new(alloc: Global, gates: &'a [Gate], table: F::Table) -> Self
        ensures gates { result.gates ≡ gates.entry.now }
        ensures table { result.table ≡ table }
        ensures empty { result.entries ≡ [] }
    {
        Live {
            gates,
            table,
            facts: IndexMap::new(alloc),
        }
    }

    /// The table, to which every live fact belongs.
    pub fn table(&self) -> &F::Table
        ensures table { result.now ≡ self.now.table }
        ensures kept { All (IsKept F.belongs F.holds self.now.gates self.now.table) (values_of self.now.entries) }
    {
        &self.table
    }

    /// The live fact with this id. It may be used at every evaluation.
    pub fn get(&self, id: u64) -> Option<&F>
        ensures fact { option_copied result ≡ fact_at self.now.entries id }
        ensures kept { IfSome result (λ f. IsKept F.belongs F.holds self.now.gates self.now.table f.now) }
    {
        self.facts.get(&id)
    }

    /// How many facts are live.
    pub fn len(&self) -> usize
        ensures { result ≡ length self.now.entries }
    {
        self.facts.len()
    }

    /// The live fact at a place from 0, and its id. Removing a fact may change the places of others.
    pub fn at(&self, place: usize) -> (u64, &F)
        requires { place < length self.now.entries }
        ensures entry { slice_get self.now.entries place ≡ Some (result.0, result.1.now) }
        ensures kept { IsKept F.belongs F.holds self.now.gates self.now.table result.1.now }
    {
        match self.facts.get_index(place) {
            Some((id, fact)) => (*id, fact),
            None => unreachable!(),
        }
    }

    /// Makes a fact live under an id that isn't.
    pub fn insert(&mut self, id: u64, fact: F) -> Result<(), InsertFail>
        requires { IsKept F.belongs F.holds self.old.gates self.old.table fact }
        ensures ok { OnOk result (ChangesAt id (Some fact) self.old self.new) }
        ensures used { IsErrOf result InsertFail.IdUsed ↔ IsSome (fact_at self.old.entries id) }
        ensures unchanged { OnErr result (self.new ≡ self.old) }
    {
        if self.facts.contains_key(&id) {
            return Err(InsertFail::IdUsed);
        }
        match self.facts.insert(id, fact) {
            Ok(_) => Ok(()),
            Err(_) => Err(InsertFail::Memory),
        }
    }

    /// Takes the fact with this id out.
    pub fn remove(&mut self, id: u64) -> Result<F, NoSuchId>
        ensures fact { IfOk result (λ f. fact_at self.old.entries id ≡ Some f) }
        ensures kept { IfOk result (IsKept F.belongs F.holds self.old.gates self.old.table) }
        ensures ok { OnOk result (ChangesAt id None self.old self.new) }
        ensures none { OnErr result (fact_at self.old.entries id ≡ None) }
        ensures unchanged { OnErr result (self.new ≡ self.old) }
    {
        self.facts.swap_remove(&id).ok_or(NoSuchId)
    }

    /// Gives up the facts, and hands out the table.
    pub fn into_table(self) -> F::Table
        ensures { result ≡ self.entry.table }
    {
        self.table
    }

    /// Lends the table to a work. All that is live stays.
    pub fn grow<G: Grow<F>>(&mut self, work: &mut G, on: &mut G::On) -> G::Out
        requires { G.can_grow work.old on.old self.old.table }
        ensures did { G.did work.old on.old self.old.table result work.new on.new self.new.table }
        ensures grows { IsGrown F.extends self.old self.new }
        // What is known of the live facts before; `Fact`'s laws say it of the new table.
        ensures kept { All (IsKept F.belongs F.holds self.old.gates self.old.table) (values_of self.old.entries) }
    {
        work.grow(on, &mut self.table)
    }

    /// Lends a live fact and the table to a work. All that is live stays.
    pub fn grow_from<G: GrowFrom<F>>(
        &mut self,
        id: u64,
        work: &mut G,
        on: &mut G::On,
    ) -> Result<G::Out, NoSuchId>
        requires { G.can_grow work.old on.old self.old.table }
        ensures did { IfOk result (λ out. IsSomeAnd (fact_at self.old.entries id)
            (λ f. G.did work.old on.old f self.old.table out work.new on.new self.new.table)) }
        ensures grows { IsGrown F.extends self.old self.new }
        // What is known of the live facts before; `Fact`'s laws say it of the new table.
        ensures kept { All (IsKept F.belongs F.holds self.old.gates self.old.table) (values_of self.old.entries) }
        ensures none { OnErr result (fact_at self.old.entries id ≡ None) }
        ensures unchanged { OnErr result ((self.new ≡ self.old) × (work.new ≡ work.old) × (on.new ≡ on.old)) }
    {
        match self.facts.get(&id) {
            None => Err(NoSuchId),
            Some(fact) => Ok(work.grow(on, fact, &mut self.table)),
        }
    }
}

// What is gathered for the lines of a certificate.
#![tactic(auto, using(poly_terms::specs::Laws::stays, poly_terms::specs::Laws::extends_on, poly_terms::specs::Laws::extends_itself))]

ghost use Rattle.std.specs.Prelude.{◌≡◌, ◌≤◌, ◌<◌, ℕ, [], IfOk, IfSome, OnOk, length};
ghost use Rattle.graph_core.specs.Graph.Extended as graphs;
ghost use Rattle.graph_core.specs.Graph.Assignments.{Assignment};
ghost use Rattle.graph_core.specs.Graph.Extended.{Extended};
ghost use Rattle.graph_core.specs.Graph.Operands.{Sides};
ghost use Rattle.ripple_graft.specs.Extension.{IsReplaced};
ghost use Rattle.poly_terms.specs.Tables.{Extends, IsOf, modulus_in, value_in};
ghost use Rattle.frontier_core.specs.Plan.{Taken, nothing};
ghost use Rattle.column_reducer.specs.Gathering.{HasColumn, HasPart, HasPower, HasTakenGate, IsEndedBatch, IsGatePartOf, IsGathered, KeepsGathered, batch_count};

use crate::gate_part::GatePart;
use crate::pieces::{power_poly, zero_poly};
use gate_axioms::equal_poly;
use graph_core::{Gate, Memory};
use poly_terms::{Poly, PolySum, Terms};
use ripple_graft::Extended as ExtendedGraph;
use std::alloc::Global;
use std::mem;

// A batch ends once its factors have more monomials than this, so that no line gets very long.
const LARGE_BATCH: u64 = 1 << 16;

/// Parts of a line, the polynomial that they add up to, and the number with which a last line takes this one.
#[derive(Debug, Drop)]
pub(crate) struct Batch {
    pub(crate) parts: Vec<(u64, Poly)>,
    pub(crate) poly: Poly,
    pub(crate) weight: Poly,
}

/// Batches that were ended, and the parts of the batch that is open.
#[derive(Debug, Drop)]
pub(crate) struct Gathered {
    pub(crate) batches: Vec<Batch>,
    /// parts over the axioms of replaced columns, which belong to the last line
    pub(crate) columns: Vec<(u64, Poly)>,
    /// the sum of what the batches state, each times its weight, and of the columns' parts
    pub(crate) total: Poly,
    /// parts that are divided by 2^power
    pub(crate) parts: Vec<(u64, Poly)>,
    /// the sum of each part's axiom times its factor
    pub(crate) stated: PolySum,
    pub(crate) power: u32,
    /// how many monomials the open batch's factors have
    pub(crate) pending: u64,
    /// how many those of the ended batches have
    pub(crate) ended: u64,
}

impl Gathered {
    /// No batch and no part.
    pub(crate) fn new(alloc: Global, terms: &mut Terms) -> Result<Gathered, Memory>
        ensures extends { Extends terms.old terms.new }
        ensures none { IfOk result (λ g. batch_count g ≡ 0) }
        ensures gathered { IfOk result (λ g. (e : Extended) (s : Sides) (rest : Assignment → ℕ) →
            modulus_in terms.old ≡ graphs.modulus e → ((σ : Assignment) → rest σ ≡ 0) →
            IsGathered e s terms.new nothing rest g) }
    {
        let total = zero_poly(alloc, terms)?;
        let power = terms.exponent() - 1;
        Ok(Gathered {
            batches: Vec::new(alloc),
            columns: Vec::new(alloc),
            total,
            parts: Vec::new(alloc),
            stated: PolySum::new(alloc),
            power,
            pending: 0,
            ended: 0,
        })
    }

    /// Takes a part over the axiom of a gate, if there is one. Where it is divided by a lesser power of two than those
    /// of the open batch, a batch begins.
    pub(crate) fn take(
        &mut self,
        alloc: Global,
        terms: &mut Terms,
        gate: &Gate,
        part: Option<GatePart>,
    ) -> Result<(), Memory>
        requires of { IfSome part (IsGatePartOf terms.old) }
        requires low { IfSome part (λ p. p.power ≤ self.old.power) }
        requires gathered { (e : Extended) × (s : Sides) × (f : Taken) × (rest : Assignment → ℕ) ×
            IsGathered e s terms.old f rest self.old }
        ensures extends { Extends terms.old terms.new }
        ensures taken { OnOk result (HasTakenGate terms.old terms.new gate.now part self.old self.new) }
    {
        match part {
            None => Ok(()),
            Some(part) => {
                self.set_power(alloc, terms, part.power)?;
                self.push(terms, gate, part)
            }
        }
    }

    // Ends the open batch where its parts are divided by another power.
    fn set_power(&mut self, alloc: Global, terms: &mut Terms, power: u32) -> Result<(), Memory>
        requires low { power ≤ self.old.power }
        requires gathered { (e : Extended) × (s : Sides) × (f : Taken) × (rest : Assignment → ℕ) ×
            IsGathered e s terms.old f rest self.old }
        ensures extends { Extends terms.old terms.new }
        ensures power { OnOk result (HasPower terms.old terms.new power self.old self.new) }
    {
        if power == self.power {
            return Ok(());
        }
        self.end_batch(alloc, terms)?;
        self.power = power;
        Ok(())
    }

    // Takes a part that is divided by the open batch's power.
    fn push(&mut self, terms: &Terms, gate: &Gate, part: GatePart) -> Result<(), Memory>
        requires of { IsGatePartOf terms.now part }
        requires stated { IsOf terms.now self.old.stated }
        ensures { OnOk result (HasPart terms.now gate.now part self.old self.new) }
    {
        self.stated.add(terms, &part.operands)?;
        self.stated.add(terms, &part.variable)?;
        self.pending = self.pending.saturating_add(terms.size(&part.factor));
        self.parts.push((u64::from(gate.v), part.factor))?;
        Ok(())
    }

    /// Takes the part of a column over its axiom, which is its old output minus its new one, where it is replaced.
    pub(crate) fn take_column(
        &mut self,
        alloc: Global,
        terms: &mut Terms,
        extended: &ExtendedGraph<'_>,
        k: u32,
    ) -> Result<(), Memory>
        requires in_range { k < length extended.now.graph.outputs }
        requires weight { k < terms.old.exponent }
        requires total { IsOf terms.old self.old.total }
        ensures extends { Extends terms.old terms.new }
        ensures column { OnOk result (HasColumn terms.old terms.new extended.now k self.old self.new) }
    {
        if !extended.replaced(k) {
            return Ok(());
        }
        self.add_column(alloc, terms, extended, k)
    }

    // The same of a column that is replaced.
    fn add_column(
        &mut self,
        alloc: Global,
        terms: &mut Terms,
        extended: &ExtendedGraph<'_>,
        k: u32,
    ) -> Result<(), Memory>
        requires in_range { k < length extended.now.graph.outputs }
        requires replaced { IsReplaced extended.now k }
        requires weight { k < terms.old.exponent }
        requires total { IsOf terms.old self.old.total }
        ensures extends { Extends terms.old terms.new }
        ensures column { OnOk result (HasColumn terms.old terms.new extended.now k self.old self.new) }
    {
        let old = extended.graph().output(k);
        let axiom = equal_poly(alloc, terms, old, extended.new_output(k))?;
        let weight = power_poly(alloc, terms, k)?;
        self.total = terms.combine(&self.total, &axiom, &weight)?;
        let id = u64::from(extended.max()) + 1 + u64::from(k);
        self.columns.push((id, weight))?;
        Ok(())
    }

    /// Ends the open batch once it is large.
    pub(crate) fn settle(&mut self, alloc: Global, terms: &mut Terms) -> Result<(), Memory>
        requires gathered { (e : Extended) × (s : Sides) × (f : Taken) × (rest : Assignment → ℕ) ×
            IsGathered e s terms.old f rest self.old }
        ensures extends { Extends terms.old terms.new }
        ensures settles { OnOk result (KeepsGathered terms.old terms.new self.old self.new) }
    {
        if self.pending <= LARGE_BATCH {
            return Ok(());
        }
        self.end_batch(alloc, terms)
    }

    /// Ends the open batch, if it has a part: it states what its parts add up to.
    pub(crate) fn end_batch(&mut self, alloc: Global, terms: &mut Terms) -> Result<(), Memory>
        requires gathered { (e : Extended) × (s : Sides) × (f : Taken) × (rest : Assignment → ℕ) ×
            IsGathered e s terms.old f rest self.old }
        ensures extends { Extends terms.old terms.new }
        ensures ended { OnOk result (IsEndedBatch terms.old terms.new self.old self.new) }
    {
        if self.parts.is_empty() {
            return Ok(());
        }
        self.close_batch(alloc, terms)
    }

    // The same of a batch that has a part.
    fn close_batch(&mut self, alloc: Global, terms: &mut Terms) -> Result<(), Memory>
        requires some { 0 < length self.old.parts.items }
        requires gathered { (e : Extended) × (s : Sides) × (f : Taken) × (rest : Assignment → ℕ) ×
            IsGathered e s terms.old f rest self.old }
        ensures extends { Extends terms.old terms.new }
        ensures ended { OnOk result (IsEndedBatch terms.old terms.new self.old self.new) }
    {
        let poly = self.stated.take(terms)?;
        // what it kept is by numbers that few later parts have
        self.stated = PolySum::new(alloc);
        let weight = power_poly(alloc, terms, self.power)?;
        self.total = terms.combine(&self.total, &poly, &weight)?;
        let parts = mem::replace(&mut self.parts, Vec::new(alloc));
        self.batches.push(Batch {
            parts,
            poly,
            weight,
        })?;
        self.ended = self.ended.saturating_add(self.pending);
        self.pending = 0;
        Ok(())
    }
}

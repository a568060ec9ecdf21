// The walk over a plan's steps, which gathers what lines are to state.
#![tactic(auto, using(poly_terms::specs::Laws::stays, poly_terms::specs::Laws::extends_on, poly_terms::specs::Laws::extends_itself, poly_terms::specs::Laws::indexed_stays))]

ghost use Rattle.std.specs.Prelude.{◌≡◌, ◌<◌, [], None, false, IfOk, IfSome, OnOk, length};
ghost use Rattle.std.specs.List.{Contains};
ghost use Rattle.graph_core.specs.Graph.Extended as graphs;
ghost use Rattle.graph_core.specs.Graph.Operands.{ReadInputs, Sides};
ghost use Rattle.graph_core.specs.Graph.Extended.{Extended as ExtendedGraph};
ghost use Rattle.poly_terms.specs.Tables.{Extends, modulus_in};
ghost use Rattle.frontier_core.specs.Plan.{CanFollow, IsFrontierOf, Taken, nothing, step, taken};
ghost use Rattle.frontier_core.specs.Sets.{has};
ghost use Rattle.frontier_core.specs.declared.step.Step.TheVariants as steps;
ghost use Rattle.column_reducer.specs.Gathering.{IsWalkOutcome, IsWalked, HasEnded};
ghost use Rattle.column_reducer.specs.Reducing.{IsPassed, KeepsBudget};

use crate::elimination::eliminate;
use crate::fresh_index::index_anew;
use crate::frontier::{add_column, gate_to_eliminate, passed};
use crate::frontier_walk::first_passed;
use crate::gathered::Gathered;
use crate::plan::Plan;
use frontier_core::Step;
use graph_core::{Gate, Memory, Operands};
use poly_terms::{Indexed, Poly, Terms};
use ripple_graft::Extended;
use std::alloc::Global;

// More monomials than this aren't kept, in parts or in the table, before it is known that all steps stay within the
// budget.
const MOST_KEPT: u64 = 1 << 19;

// A frontier is large that has more monomials than this share of the budget, and more than so many: fewer are kept in
// little memory, and to walk twice costs more than a plan that fails.
const SHARE: u64 = 4;

const FEW: u64 = 1 << 13;

// Where a large frontier has more monomials than this share of all new ones, few are gone: mostly a later one has more
// than the budget.
const SHARE_OF_NEW: u64 = 3;

// The frontier's index is made anew once the table has got so many monomials since, twice as many as the frontier has,
// and half as many as there are variables: an index has a place for each.
const MANY_NEW: u64 = 1 << 14;

/// What there is after some steps.
#[derive(Debug, Drop)]
pub(crate) struct Walk {
    /// the frontier's function
    pub(crate) rest: Indexed,
    pub(crate) gathered: Gathered,
}

/// What there is after all steps: no batch is open.
#[derive(Debug, Drop)]
pub(crate) struct Ended {
    pub(crate) rest: Poly,
    pub(crate) gathered: Gathered,
}

/// What a walk ends with.
#[derive(Debug, Drop)]
pub(crate) enum Outcome {
    /// all steps were taken
    Ended(Ended),
    /// the first step that leaves more monomials than the budget, and how many
    Passed { step: u64, size: u64 },
}

/// Takes the steps of a plan until a frontier has more monomials than the budget.
pub(crate) fn take_steps(
    alloc: Global,
    terms: &mut Terms,
    plan: &Plan<'_>,
    operands: &Operands,
    budget: u64,
) -> Result<Outcome, Memory>
    requires inputs { ReadInputs plan.now.extended.graph operands.now }
    requires same_modulus { modulus_in terms.old ≡ graphs.modulus plan.now.extended }
    ensures extends { Extends terms.old terms.new }
    ensures outcome { IfOk result (IsWalkOutcome plan.now operands.now terms.new budget) }
{
    let _steps = plan.steps();
    let mut walk = Walk::start(alloc, terms)?;
    let passed = walk.follow(alloc, terms, plan, operands, budget)?;
    match passed {
        Some((step, size)) => Ok(Outcome::Passed { step, size }),
        None => {
            let ended = walk.end(alloc, terms)?;
            Ok(Outcome::Ended(ended))
        }
    }
}

impl Walk {
    // Before the first step.
    fn start(alloc: Global, terms: &mut Terms) -> Result<Walk, Memory>
        ensures extends { Extends terms.old terms.new }
        ensures walked { IfOk result (λ w. (e : ExtendedGraph) (s : Sides) →
            modulus_in terms.old ≡ graphs.modulus e → IsWalked e s terms.new nothing w) }
    {
        let rest = Indexed::new(alloc, terms);
        let gathered = Gathered::new(alloc, terms)?;
        Ok(Walk { rest, gathered })
    }

    // Takes the steps, from before the first one, and answers the first that leaves more monomials than the budget, and
    // how many. Where that may come, or much is kept, the frontiers alone are walked first from there on.
    fn follow(
        &mut self,
        alloc: Global,
        terms: &mut Terms,
        plan: &Plan<'_>,
        operands: &Operands,
        budget: u64,
    ) -> Result<Option<(u64, u64)>, Memory>
        requires inputs { ReadInputs plan.now.extended.graph operands.now }
        requires walked { IsWalked plan.now.extended operands.now terms.old nothing self.old }
        ensures extends { Extends terms.old terms.new }
        ensures passed { IfOk result (λ r. IfSome r (λ at. IsPassed plan.now operands.now budget at.0 at.1)) }
        ensures within { IfOk result (λ r. r ≡ None → KeepsBudget plan.now operands.now budget) }
        ensures walked { IfOk result (λ r. r ≡ None →
            IsWalked plan.now.extended operands.now terms.new (taken nothing plan.now.steps) self.new) }
    {
        let extended = plan.extended();
        let steps = plan.steps();
        let before = terms.count();
        let mut indexed = before;
        let mut is_within = false;
        for count in 0..steps.len() {
            if let Some(at) = passed(terms, plan, &self.rest, count, budget) {
                return Ok(Some(at));
            }
            if !is_within && self.may_pass(terms.count().saturating_sub(before), budget) {
                if let Some(at) = first_passed(
                    alloc, terms, &self.rest, plan, operands, budget, count,
                )? {
                    return Ok(Some(at));
                }
                is_within = true;
            }
            self.take_step(alloc, terms, extended, operands, steps[count])?;
            self.settle(alloc, terms)?;
            indexed = self.clear_index(alloc, terms, extended.max(), indexed)?;
        }
        Ok(passed(terms, plan, &self.rest, steps.len(), budget))
    }

    // Whether the frontier is large, and few monomials are gone, or much is kept, in parts or, with so many new monomials,
    // in the table.
    fn may_pass(&self, new: u64, budget: u64) -> bool {
        let size = self.rest.size();
        let is_large = size > FEW && size > budget / SHARE;
        let kept = self.gathered.pending.saturating_add(self.gathered.ended);
        (is_large && size > new / SHARE_OF_NEW) || new > MOST_KEPT || kept > MOST_KEPT
    }

    // Takes a step.
    fn take_step(
        &mut self,
        alloc: Global,
        terms: &mut Terms,
        extended: &Extended<'_>,
        operands: &Operands,
        this: Step,
    ) -> Result<(), Memory>
        requires inputs { ReadInputs extended.now.graph operands.now }
        requires follows { (f : Taken) ×
            IsWalked extended.now operands.now terms.old f self.old × CanFollow extended.now f this }
        ensures extends { Extends terms.old terms.new }
        ensures walked { OnOk result ((f : Taken) → IsFrontierOf extended.now f → CanFollow extended.now f this →
            IsWalked extended.now operands.now terms.old f self.old →
            IsWalked extended.now operands.now terms.new (step f this) self.new) }
    {
        match this {
            Step::Add(k) => self.add_column(alloc, terms, extended, operands, k),
            Step::Eliminate(v) => {
                let gate = gate_to_eliminate(extended, v);
                self.eliminate(alloc, terms, extended, gate)
            }
        }
    }

    // Adds a column: where it is replaced, a part is gathered.
    fn add_column(
        &mut self,
        alloc: Global,
        terms: &mut Terms,
        extended: &Extended<'_>,
        operands: &Operands,
        k: u32,
    ) -> Result<(), Memory>
        requires in_range { k < length extended.now.graph.outputs }
        requires inputs { ReadInputs extended.now.graph operands.now }
        requires walked { (f : Taken) × IsWalked extended.now operands.now terms.old f self.old }
        ensures extends { Extends terms.old terms.new }
        ensures walked { OnOk result ((f : Taken) → IsFrontierOf extended.now f → has f.added k ≡ false →
            IsWalked extended.now operands.now terms.old f self.old →
            IsWalked extended.now operands.now terms.new (step f (steps.Add k)) self.new) }
    {
        let _gates = extended.gates();
        add_column(alloc, terms, &mut self.rest, extended, operands, k)?;
        self.gathered.take_column(alloc, terms, extended, k)
    }

    // Eliminates a gate: where the rest has its variable, a part is gathered.
    fn eliminate(
        &mut self,
        alloc: Global,
        terms: &mut Terms,
        extended: &Extended<'_>,
        gate: Gate,
    ) -> Result<(), Memory>
        requires gate { Contains extended.now.gates gate }
        requires walked { (s : Sides) × (f : Taken) × IsWalked extended.now s terms.old f self.old }
        ensures extends { Extends terms.old terms.new }
        ensures walked { OnOk result ((s : Sides) (f : Taken) →
            IsFrontierOf extended.now f → has f.eliminated gate.v ≡ false →
            IsWalked extended.now s terms.old f self.old →
            IsWalked extended.now s terms.new (step f (steps.Eliminate gate.v)) self.new) }
    {
        let _gates = extended.gates();
        let most = self.gathered.power;
        let part = eliminate(alloc, terms, &mut self.rest, &gate, most)?;
        self.gathered.take(alloc, terms, &gate, part)
    }

    // Ends a large batch.
    fn settle(&mut self, alloc: Global, terms: &mut Terms) -> Result<(), Memory>
        requires walked { (e : ExtendedGraph) × (s : Sides) × (f : Taken) × IsWalked e s terms.old f self.old }
        ensures extends { Extends terms.old terms.new }
        ensures walked { OnOk result ((e : ExtendedGraph) (s : Sides) (f : Taken) →
            IsWalked e s terms.old f self.old → IsWalked e s terms.new f self.new) }
    {
        self.gathered.settle(alloc, terms)
    }

    // Makes the frontier's index anew, where the table has got many monomials since it had so many, and answers how many
    // it had when that was done last.
    fn clear_index(
        &mut self,
        alloc: Global,
        terms: &Terms,
        max: u32,
        indexed: u64,
    ) -> Result<u64, Memory>
        requires walked { (e : ExtendedGraph) × (s : Sides) × (f : Taken) × IsWalked e s terms.now f self.old }
        ensures walked { OnOk result ((e : ExtendedGraph) (s : Sides) (f : Taken) →
            IsWalked e s terms.now f self.old → IsWalked e s terms.now f self.new) }
    {
        let count = terms.count();
        let new = count.saturating_sub(indexed);
        if new <= MANY_NEW || new / 2 <= self.rest.size() || new <= u64::from(max) / 2 {
            return Ok(indexed);
        }
        index_anew(alloc, terms, &mut self.rest)?;
        Ok(count)
    }

    // Ends the last batch.
    fn end(self, alloc: Global, terms: &mut Terms) -> Result<Ended, Memory>
        requires walked { (e : ExtendedGraph) × (s : Sides) × (f : Taken) × IsWalked e s terms.old f self }
        ensures extends { Extends terms.old terms.new }
        ensures rest { IfOk result (λ w. w.rest ≡ self.rest.sum) }
        ensures ended { IfOk result (λ w. (e : ExtendedGraph) (s : Sides) (f : Taken) →
            IsWalked e s terms.old f self → HasEnded e s terms.new f w.rest w.gathered) }
    {
        let Walk { rest, mut gathered } = self;
        let rest = rest.to_poly()?;
        gathered.end_batch(alloc, terms)?;
        Ok(Ended { rest, gathered })
    }
}

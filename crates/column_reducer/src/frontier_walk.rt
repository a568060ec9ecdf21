// The walk over a plan's frontiers alone, in a table of its own.
#![tactic(auto, using(poly_terms::specs::Laws::stays, poly_terms::specs::Laws::extends_on, poly_terms::specs::Laws::extends_itself, poly_terms::specs::Laws::indexed_stays))]

ghost use Rattle.std.specs.Prelude.{◌≡◌, ◌+◌, ◌<◌, ◌≤◌, ℕ, None, IfOk, IfSome, OnOk, length, take};
ghost use Rattle.graph_core.specs.Graph.Assignments.{Assignment};
ghost use Rattle.graph_core.specs.Graph.Extended.{Extended};
ghost use Rattle.graph_core.specs.Graph.Operands.{ReadInputs, Sides};
ghost use Rattle.poly_terms.specs.Indexed.{IsIndexed};
ghost use Rattle.poly_terms.specs.Tables.{Extends, IsOf, value_in};
ghost use Rattle.frontier_core.specs.Plan.{CanFollow, IsFrontierOf, Taken, nothing, step, taken};
ghost use Rattle.column_reducer.specs.Gathering.{IsRest};
ghost use Rattle.column_reducer.specs.Reducing.{HasSizeAt, IsPassed, KeepsBudget};

use crate::elimination::eliminate;
use crate::frontier::{add_column, gate_to_eliminate, passed};
use crate::plan::Plan;
use frontier_core::Step;
use graph_core::{Memory, Operands};
use poly_terms::{Indexed, Poly, Terms};
use ripple_graft::Extended as ExtendedGraph;
use std::alloc::Global;

// A table with at most twice so many monomials, or twice an eighth of the variables if that is less, isn't made anew: an
// index has a place for each variable.
const SMALL_TABLE: u64 = 1 << 16;

/// The first step from this one on that leaves a frontier with more monomials than the budget, and how many: none if all
/// have at most as many. The polynomial is the function of the frontier before it.
pub(crate) fn first_passed(
    alloc: Global,
    terms: &Terms,
    rest: &Indexed,
    plan: &Plan<'_>,
    operands: &Operands,
    budget: u64,
    from: usize,
) -> Result<Option<(u64, u64)>, Memory>
    requires inputs { ReadInputs plan.now.extended.graph operands.now }
    requires rest { IsRest plan.now.extended operands.now terms.now (taken nothing (take from plan.now.steps)) rest.now }
    requires low { from ≤ length plan.now.steps }
    requires before { (i n : ℕ) → plan.now.uncounted + i < from → HasSizeAt plan.now operands.now i n → n ≤ budget }
    ensures passed { IfOk result (λ r. IfSome r (λ at. IsPassed plan.now operands.now budget at.0 at.1)) }
    ensures within { IfOk result (λ r. r ≡ None → KeepsBudget plan.now operands.now budget) }
{
    let poly = rest.to_poly()?;
    let mut own = Terms::new(alloc, terms.exponent());
    let mut alone = brought(alloc, terms, &mut own, &poly)?;
    passed_from(alloc, &mut own, &mut alone, plan, operands, budget, from)
}

// The same, in the table that the walk takes its steps in.
fn passed_from(
    alloc: Global,
    terms: &mut Terms,
    rest: &mut Indexed,
    plan: &Plan<'_>,
    operands: &Operands,
    budget: u64,
    from: usize,
) -> Result<Option<(u64, u64)>, Memory>
    requires inputs { ReadInputs plan.now.extended.graph operands.now }
    requires rest { IsRest plan.now.extended operands.now terms.old (taken nothing (take from plan.now.steps)) rest.old }
    requires low { from ≤ length plan.now.steps }
    requires before { (i n : ℕ) → plan.now.uncounted + i < from → HasSizeAt plan.now operands.now i n → n ≤ budget }
    ensures passed { IfOk result (λ r. IfSome r (λ at. IsPassed plan.now operands.now budget at.0 at.1)) }
    ensures within { IfOk result (λ r. r ≡ None → KeepsBudget plan.now operands.now budget) }
{
    let extended = plan.extended();
    let steps = plan.steps();
    for count in from..steps.len() {
        if let Some(at) = passed(terms, plan, rest, count, budget) {
            return Ok(Some(at));
        }
        take_step(alloc, terms, rest, extended, operands, steps[count])?;
        renew(alloc, terms, rest, extended.max())?;
    }
    Ok(passed(terms, plan, rest, steps.len(), budget))
}

// Takes a step: what is left of an eliminated gate isn't kept.
fn take_step(
    alloc: Global,
    terms: &mut Terms,
    rest: &mut Indexed,
    extended: &ExtendedGraph<'_>,
    operands: &Operands,
    this: Step,
) -> Result<(), Memory>
    requires inputs { ReadInputs extended.now.graph operands.now }
    requires follows { (f : Taken) ×
        IsRest extended.now operands.now terms.old f rest.old × CanFollow extended.now f this }
    ensures of { OnOk result (IsOf terms.new rest.new.sum) }
    ensures rest { OnOk result ((f : Taken) → IsFrontierOf extended.now f → CanFollow extended.now f this →
        IsRest extended.now operands.now terms.old f rest.old →
        IsRest extended.now operands.now terms.new (step f this) rest.new) }
{
    let _gates = extended.gates();
    let _exponent = terms.exponent();
    match this {
        Step::Add(k) => add_column(alloc, terms, rest, extended, operands, k),
        Step::Eliminate(v) => {
            let gate = gate_to_eliminate(extended, v);
            let _part = eliminate(alloc, terms, rest, &gate, 0)?;
            Ok(())
        }
    }
}

// Makes the table anew where most of its monomials aren't the frontier's any more.
fn renew(alloc: Global, terms: &mut Terms, rest: &mut Indexed, max: u32) -> Result<(), Memory>
    requires { IsOf terms.old rest.old.sum }
    ensures { OnOk result ((e : Extended) (s : Sides) (f : Taken) →
        IsRest e s terms.old f rest.old → IsRest e s terms.new f rest.new) }
{
    let small = SMALL_TABLE.min(u64::from(max) / 8);
    if terms.count() / 2 <= rest.size().max(small) {
        return Ok(());
    }
    let poly = rest.to_poly()?;
    // the old index goes before the new one comes
    *rest = Indexed::new(alloc, terms);
    let mut new = Terms::new(alloc, terms.exponent());
    *rest = brought(alloc, terms, &mut new, &poly)?;
    *terms = new;
    Ok(())
}

// A polynomial in another table of the same exponent.
fn brought(alloc: Global, terms: &Terms, new: &mut Terms, poly: &Poly) -> Result<Indexed, Memory>
    requires of { IsOf terms.now poly.now }
    requires exponent { terms.now.exponent ≡ new.old.exponent }
    ensures extends { Extends new.old new.new }
    ensures of { IfOk result (λ r. IsOf new.new r.sum) }
    ensures indexed { IfOk result (λ r. IsIndexed new.new r) }
    ensures value { IfOk result (λ r. (σ : Assignment) → value_in new.new r.sum σ ≡ value_in terms.now poly.now σ) }
{
    let mut rest = Indexed::new(alloc, new);
    let brought = new.bring(terms, poly)?;
    rest.add(new, &brought)?;
    Ok(rest)
}

// Single plans: the columns are reduced in an order of elimination, and the remainder decides.
ghost use Rattle.std.specs.Prelude.{◌≡◌, ◌≤◌, ◌++◌, ◌∷◌, [], IfOk, None, OnOk, length};
ghost use Rattle.frontier_core.specs.Plan.{nothing, taken};
ghost use Rattle.graph_core.specs.Graph.Operands.{sides_for};
ghost use Rattle.pac_writer.specs.Writing.{Made};
ghost use Rattle.joint_prover.specs.Endings.{Decides, IsJob, IsOutcome, IsPlainEnd, IsRemainder, IsShown, IsStart, IsTriedAt, replacement_named};
ghost use Rattle.joint_prover.specs.Replacements.{extended_by};

use crate::conclusion::{prove, refute};
use crate::decision::{Decision, Outcome, Plainly};
use crate::shortened::shortened;
use crate::shown::Shown;
use crate::task::Job;
use crate::verdict::Tried;
use column_reducer::{Plan, Reduced, column_plan, plain_plan, reduce};
use frontier_core::Step;
use graph_core::Memory;
use pac_writer::Lines;
use poly_terms::Poly;
use slice_planner::Order;
use std::alloc::Global;
use witness_finder::least;

/// What the plan of this order comes to over an extended graph, with this budget.
pub(crate) fn reduce_along<'a>(
    alloc: Global,
    job: &Job<'_>,
    shown: Shown<'a>,
    order: Order,
    budget: u64,
) -> Result<Outcome<'a>, Memory>
    requires job { IsJob job.now }
    requires shown { IsShown job.now.graph.now job.now.task shown }
    requires within { budget ≤ job.now.task.budget }
    ensures { IfOk result (IsOutcome job.now.graph.now job.now.task (replacement_named shown.entry) order budget) }
{
    let mut lines = start_lines(alloc, job, shown)?;
    let plan = column_plan(alloc, order, shown.extended)?;
    match reduce(alloc, &plan, budget, &mut lines)? {
        Reduced::Rest { poly, id } => {
            let decision = end_plan(alloc, job, shown, lines, &poly, id)?;
            Ok(Outcome::Decided(decision))
        }
        Reduced::Passed { step, size } => Ok(Outcome::Passed { plan, step, size }),
    }
}

/// What the plain plan comes to over the graph alone.
pub(crate) fn reduce_plainly(
    alloc: Global,
    job: &Job<'_>,
    alone: Shown<'_>,
) -> Result<Plainly, Memory>
    requires job { IsJob job.now }
    requires alone { IsShown job.now.graph.now job.now.task alone }
    requires lone { replacement_named alone ≡ None }
    ensures { IfOk result (IsPlainEnd job.now.graph.now job.now.task) }
{
    let mut lines = start_lines(alloc, job, alone)?;
    let plan = plain_plan(alloc, alone.extended)?;
    match reduce(alloc, &plan, job.task.budget, &mut lines)? {
        Reduced::Rest { poly, id } => {
            let decision = end_plan(alloc, job, alone, lines, &poly, id)?;
            Ok(Plainly::Decided(shortened(alloc, job, alone, decision)))
        }
        Reduced::Passed { step, size } => Ok(Plainly::Passed { step, size }),
    }
}

/// No line, over an extended graph whose faults are none.
pub(crate) fn start_lines<'a>(
    alloc: Global,
    job: &Job<'a>,
    shown: Shown<'a>,
) -> Result<Lines<'a>, Memory>
    requires job { IsJob job.now }
    requires shown { IsShown job.now.graph.now job.now.task shown }
    ensures start { IfOk result IsStart }
    ensures extended { IfOk result (λ l. l.extended ≡ extended_by job.now.graph.now (replacement_named shown.entry)) }
    ensures sides { IfOk result (λ l. l.sides ≡ sides_for job.now.task.claim job.now.graph.now) }
{
    let _gates = shown.extended.gates();
    Lines::new(alloc, shown.extended, job.operands)
}

/// What the remainder of a plan decides: the lines are closed where it is 0.
pub(crate) fn end_plan(
    alloc: Global,
    job: &Job<'_>,
    shown: Shown<'_>,
    lines: Lines<'_>,
    poly: &Poly,
    id: u64,
) -> Result<Decision, Memory>
    requires job { IsJob job.now }
    requires shown { IsShown job.now.graph.now job.now.task shown }
    requires left { (start : Made) × IsStart start × (start.sides ≡ sides_for job.now.task.claim job.now.graph.now) ×
        (start.extended ≡ extended_by job.now.graph.now (replacement_named shown)) × IsRemainder start lines poly.now id }
    ensures { IfOk result (Decides job.now.graph.now job.now.task (replacement_named shown.entry)) }
{
    let _last = lines.last();
    match least(lines.terms(), poly, lines.operands()) {
        Some(numbers) => Ok(Decision::Wrong(refute(alloc, job, numbers)?)),
        None => {
            let mut lines = lines;
            lines.close(id);
            prove(alloc, job, shown, lines)
        }
    }
}

/// The frontier that the first steps of a plan leave, which has so many monomials.
pub(crate) fn frontier_after(
    alloc: Global,
    plan: &Plan<'_>,
    steps: u64,
    size: u64,
    rewritten: bool,
) -> Result<Tried, Memory>
    requires { steps ≤ length plan.now.steps }
    ensures { IfOk result (IsTriedAt plan.now.steps steps size rewritten) }
{
    let mut columns = Vec::new(alloc);
    let mut gates = Vec::new(alloc);
    for &step in &plan.steps()[..steps as usize] {
        push_step(&mut columns, &mut gates, step)?;
    }
    // the latest first
    columns.reverse();
    gates.reverse();
    Ok(Tried {
        rewritten,
        columns,
        gates,
        size,
    })
}

// The column that a step adds, or the gate that it eliminates.
fn push_step(columns: &mut Vec<u32>, gates: &mut Vec<u32>, step: Step) -> Result<(), Memory>
    ensures columns { OnOk result (columns.new.items ≡ columns.old.items ++ (taken nothing (step ∷ [])).added) }
    ensures gates { OnOk result (gates.new.items ≡ gates.old.items ++ (taken nothing (step ∷ [])).eliminated) }
{
    match step {
        Step::Add(column) => columns.push(column)?,
        Step::Eliminate(gate) => gates.push(gate)?,
    }
    Ok(())
}

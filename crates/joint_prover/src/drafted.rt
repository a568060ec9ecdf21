// Plans whose lines are drafted: what is drafted comes from a heuristic, and the lines that are written of it decide.
ghost use Rattle.std.specs.Prelude.{IfOk, IfSome};
ghost use Rattle.frontier_core.specs.Plan.{IsPlan};
ghost use Rattle.joint_prover.specs.Endings.{Decides, IsJob, IsShown, replacement_named};

use crate::decision::Decision;
use crate::reduction::{end_plan, start_lines};
use crate::shown::Shown;
use crate::task::Job;
use column_reducer::{Plan, column_plan};
use gate_axioms::Draft;
use graph_core::Memory;
use implied_drafts::draft_plan;
use line_drafts::write_drafts;
use slice_planner::Order;
use std::alloc::Global;

/// What lines decide that are drafted along the plan of this order, by implications, with this budget. None where the
/// drafts give none, or where what they leave isn't over inputs alone.
pub(crate) fn decide_by_drafts(
    alloc: Global,
    job: &Job<'_>,
    shown: Shown<'_>,
    order: Order,
    budget: u64,
) -> Result<Option<Decision>, Memory>
    requires job { IsJob job.now }
    requires shown { IsShown job.now.graph.now job.now.task shown }
    ensures { IfOk result (λ d. IfSome d
        (Decides job.now.graph.now job.now.task (replacement_named shown.entry))) }
{
    let plan = column_plan(alloc, order, shown.extended)?;
    let drafts = draft_plan(alloc, shown.extended, job.operands, plan.steps(), budget)?;
    match drafts {
        Some(drafts) => decide_by_lines(alloc, job, shown, &plan, &drafts),
        None => Ok(None),
    }
}

/// What lines decide that are written from drafts, whatever plan they are along.
pub(crate) fn decide_by_lines(
    alloc: Global,
    job: &Job<'_>,
    shown: Shown<'_>,
    plan: &Plan<'_>,
    drafts: &[Draft],
) -> Result<Option<Decision>, Memory>
    requires job { IsJob job.now }
    requires shown { IsShown job.now.graph.now job.now.task shown }
    requires plan { IsPlan shown.extended.now plan.now.steps }
    ensures { IfOk result (λ d. IfSome d
        (Decides job.now.graph.now job.now.task (replacement_named shown.entry))) }
{
    let mut lines = start_lines(alloc, job, shown)?;
    let Some((poly, id)) = write_drafts(alloc, &mut lines, drafts)? else {
        return Ok(None);
    };
    // each line is lawful
    let _last = lines.last();
    let decision = end_plan(alloc, job, shown, lines, &poly, id)?;
    Ok(Some(decision))
}

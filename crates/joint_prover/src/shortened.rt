// Pairs past the limits, whose long lines are written as several.
ghost use Rattle.std.specs.Prelude.{IfOk, IfSome};
ghost use Rattle.pair_core.specs.Texts.{CanBeWritten};
ghost use Rattle.joint_prover.specs.Endings.{Decides, IsJob, IsShown, replacement_named};

use crate::decision::Decision;
use crate::drafted::decide_by_lines;
use crate::ended::has_long_pair;
use crate::shown::Shown;
use crate::task::Job;
use column_reducer::column_plan;
use graph_core::Memory;
use line_drafts::split_lines;
use pair_core::Pair;
use slice_planner::Order;
use std::alloc::Global;

/// The same decision. A pair that is past the limits is written anew, with each long line as several, and the new one
/// is taken where it isn't past them.
pub(crate) fn shortened(
    alloc: Global,
    job: &Job<'_>,
    shown: Shown<'_>,
    decision: Decision,
) -> Decision
    requires job { IsJob job.now }
    requires shown { IsShown job.now.graph.now job.now.task shown }
    requires decides { Decides job.now.graph.now job.now.task (replacement_named shown) decision }
    ensures { Decides job.now.graph.now job.now.task (replacement_named shown.entry) result }
{
    // without memory for it the first pair stays
    match written_anew(alloc, job, shown, &decision) {
        Ok(Some(anew)) => anew,
        _ => decision,
    }
}

// The decision with a pair that is within the limits, where that in hand isn't, and that is found.
fn written_anew(
    alloc: Global,
    job: &Job<'_>,
    shown: Shown<'_>,
    decision: &Decision,
) -> Result<Option<Decision>, Memory>
    requires job { IsJob job.now }
    requires shown { IsShown job.now.graph.now job.now.task shown }
    requires decides { Decides job.now.graph.now job.now.task (replacement_named shown) decision.now }
    ensures { IfOk result (λ d. IfSome d
        (Decides job.now.graph.now job.now.task (replacement_named shown.entry))) }
{
    if !has_long_pair(decision, &job.limits) {
        return Ok(None);
    }
    let Some(anew) = split(alloc, job, shown, decision)? else {
        return Ok(None);
    };
    if has_long_pair(&anew, &job.limits) {
        return Ok(None);
    }
    Ok(Some(anew))
}

// What its lines decide where each long one is several.
fn split(
    alloc: Global,
    job: &Job<'_>,
    shown: Shown<'_>,
    decision: &Decision,
) -> Result<Option<Decision>, Memory>
    requires job { IsJob job.now }
    requires shown { IsShown job.now.graph.now job.now.task shown }
    requires decides { Decides job.now.graph.now job.now.task (replacement_named shown) decision.now }
    ensures { IfOk result (λ d. IfSome d
        (Decides job.now.graph.now job.now.task (replacement_named shown.entry))) }
{
    match decision {
        Decision::Proved(pair) => split_pair(alloc, job, shown, pair),
        _ => Ok(None),
    }
}

fn split_pair(
    alloc: Global,
    job: &Job<'_>,
    shown: Shown<'_>,
    pair: &Pair,
) -> Result<Option<Decision>, Memory>
    requires job { IsJob job.now }
    requires shown { IsShown job.now.graph.now job.now.task shown }
    requires written { CanBeWritten pair.now }
    ensures { IfOk result (λ d. IfSome d
        (Decides job.now.graph.now job.now.task (replacement_named shown.entry))) }
{
    // with one term more a line stays within the limit
    let most = job.limits.line / 4 * 3;
    let drafts = split_lines(alloc, shown.extended, &pair.terms, &pair.algebra, most)?;
    let Some(drafts) = drafts else {
        return Ok(None);
    };
    let plan = column_plan(alloc, Order::Slices, shown.extended)?;
    decide_by_lines(alloc, job, shown, &plan, &drafts)
}

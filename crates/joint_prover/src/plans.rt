// The order of plans: what is tried over which graph, with which budget, until one decides.
ghost use Rattle.std.specs.Prelude.{◌≡◌, ◌≤◌, ◌++◌, ◌∷◌, [], None, Some, IfOk, IfSome, IsNone, option_map};
ghost use Rattle.frontier_core.specs.LastFrontier.{AgreeEverywhere};
ghost use Rattle.graph_core.specs.Graph.Operands.{AreInRange};
ghost use Rattle.stage_rewriter.specs.Placing.{IsShownBeside};
ghost use Rattle.stage_rewriter.specs.Rewriting.{IsShownRewriting};
ghost use Rattle.joint_prover.specs.declared.replacement.Replacement.TheVariants.{Adder, Beside};
ghost use Rattle.joint_prover.specs.declared.verdict.Tried.{Tried as TriedPlan};
ghost use Rattle.joint_prover.specs.Decisions.{IsDecision};
ghost use Rattle.joint_prover.specs.Endings.{AreLeast, Decides, DecidesAtLast, IsEnd, IsEndedFor, IsEndedOver, IsEndedWithFound, IsJob, IsShown, replacement_named, replacement_of_found, over_replacement};
ghost use Rattle.joint_prover.specs.Notes.{IsFound};
ghost use Rattle.joint_prover.specs.Tries.{AreTried, IsTried};
ghost use Rattle.joint_prover.specs.Verdicts.{HaveManyOnes, IsFirstAbove, IsWrong};

use crate::conclusion::refute;
use crate::decision::{Decision, Outcome, Plainly};
use crate::difference::Difference;
use crate::drafted::decide_by_drafts;
use crate::ended::{Ended, first_short, is_settled};
use crate::reduction::{frontier_after, reduce_along, reduce_plainly};
use crate::reference::{Compared, compare};
use crate::replacement::Replacement;
use crate::seen::see;
use crate::shortened::shortened;
use crate::shown::{Found, Shown, find_cut};
use crate::task::Job;
use crate::verdict::Tried;
use graph_core::{Memory, Numbers, Sign};
use operand_search::{least_seen, least_within, most_ones_within};
use reference_guesser::Guesses;
use slice_planner::Order;
use stage_rewriter::Placed;
use std::alloc::Global;

// How a plan's lines come about.
#[derive(Clone, Copy)]
enum Lines {
    // each step's frontier is reduced, and kept
    Reduced,
    // they are drafted by implications
    Drafted,
}

// How many monomials a plan may keep.
#[derive(Clone, Copy)]
enum Budget {
    // so few that a plan which passes it costs nothing
    Few,
    // so many times what made multipliers take
    Small(u64),
    // the twelfth part of the cube of the operands' bits: what passes it costs no more than drafted lines
    Cubed,
    Whole,
}

// A plan has lines of one kind, an order of elimination, and a budget.
type Try = (Lines, Order, Budget);

// What comes first, over the graph with the adder that is used, or over the graph alone where none is.
const SOON: [Try; 1] = [(Lines::Reduced, Order::Slices, Budget::Small(1))];

// What comes over the graph with an adder at a cut that is found.
const FOUND: [Try; 6] = [
    (Lines::Reduced, Order::Slices, Budget::Small(1)),
    (Lines::Reduced, Order::ByColumn, Budget::Cubed),
    (Lines::Drafted, Order::Slices, Budget::Small(1)),
    (Lines::Reduced, Order::ByColumn, Budget::Small(2)),
    (Lines::Drafted, Order::SumsLast, Budget::Small(16)),
    (Lines::Reduced, Order::AtEnd, Budget::Small(16)),
];

// The same where an addend is claimed: the adder that is found may be the one before the last, and the greater frontiers
// of a plan by layers have shorter lines as long as they are small.
const FOUND_OF_SUM: [Try; 6] = [
    (Lines::Reduced, Order::Slices, Budget::Small(1)),
    (Lines::Reduced, Order::AtEnd, Budget::Few),
    (Lines::Drafted, Order::Slices, Budget::Small(1)),
    (Lines::Drafted, Order::SumsLast, Budget::Small(16)),
    (Lines::Reduced, Order::ByColumn, Budget::Small(2)),
    (Lines::Reduced, Order::AtEnd, Budget::Small(16)),
];

// What comes there at last.
const FOUND_AT_LAST: [Try; 1] = [(Lines::Reduced, Order::Slices, Budget::Whole)];

// What comes over the graph with a reference beside it.
const BESIDE: [Try; 3] = [
    (Lines::Reduced, Order::Slices, Budget::Small(1)),
    (Lines::Drafted, Order::Slices, Budget::Small(1)),
    (Lines::Drafted, Order::SumsLast, Budget::Small(16)),
];

// How many references are compared with the graph.
const REFERENCES: usize = 3;

// What comes before any whole budget, over the same graph as what comes first.
const DRAFTED: [Try; 1] = [(Lines::Drafted, Order::SumsLast, Budget::Small(16))];

// What it may cost to try values of the inputs before a plan is known to be hard: from 32 bits on those with two ones,
// which are always tried, and at 16 bits those with three.
const FEW: u64 = 1 << 20;
// What it may cost where a plan is: at 64 bits, those with three ones.
const MORE: u64 = 1 << 29;
// What it may cost where the graph is known to be wrong, and no plan tells where: at 64 bits, those with four ones.
const LATE: u64 = 1 << 35;

/// What the plans decide over the graph alone and over the graph that is in use, and what was found where a plan over
/// the graph with it decided that. Numbers are known, perhaps, on which an adder's outputs aren't the graph's. A pair
/// that is past the limits is taken only where no plan with a small budget comes to one that isn't; then none with the
/// whole budget is tried.
pub(crate) fn decide_by_plans(
    alloc: Global,
    job: &Job<'_>,
    alone: Shown<'_>,
    used: Shown<'_>,
    differing: Option<Numbers>,
) -> Result<(Decision, Option<Replacement>), Memory>
    requires job { IsJob job.now }
    requires alone { IsShown job.now.graph.now job.now.task alone }
    requires lone { replacement_named alone ≡ None }
    requires used { IsShown job.now.graph.now job.now.task used }
    requires differing { IfSome differing (AreInRange job.now.operands.now) }
    ensures found { IfOk result (λ r. IfSome r.1 (IsFound job.now.graph.now)) }
    ensures decision { IfOk result (λ r. IsDecision job.now.graph.now job.now.task
        (replacement_of_found (replacement_named used.entry) r.1) r.0) }
{
    let mut differing = differing;
    if let Some(ended) = decide_early(alloc, job, used, &mut differing)? {
        let Ended {
            decision,
            found,
            ..
        } = ended;
        return Ok((decision, found));
    }
    let decision = decide_at_last(alloc, job, alone, used, differing)?;
    Ok((decision, None))
}

// What plans decide before the whole budget is spent on the graphs of the first plan and of the last. Numbers at which
// the graph is seen to be wrong on the way are kept.
fn decide_early(
    alloc: Global,
    job: &Job<'_>,
    used: Shown<'_>,
    differing: &mut Option<Numbers>,
) -> Result<Option<Ended>, Memory>
    requires job { IsJob job.now }
    requires used { IsShown job.now.graph.now job.now.task used }
    requires differing { IfSome differing.old (AreInRange job.now.operands.now) }
    ensures ended { IfOk result (λ e. IfSome e (IsEndedFor job.now (replacement_named used.entry))) }
    ensures differing { IfSome differing.new (AreInRange job.now.operands.now) }
{
    let soon = decide_soon(alloc, job, used)?;
    if is_settled(&soon) {
        return Ok(soon);
    }
    let later = decide_by_values(alloc, job, used, soon.is_none(), differing)?;
    Ok(first_short(soon, later))
}

// What plans decide over the graph with an adder that is found by values, and over the graph of the first plan lines
// that are drafted. The whole budget is spent only where none has come to a pair, before them neither.
fn decide_by_values(
    alloc: Global,
    job: &Job<'_>,
    used: Shown<'_>,
    is_open: bool,
    differing: &mut Option<Numbers>,
) -> Result<Option<Ended>, Memory>
    requires job { IsJob job.now }
    requires used { IsShown job.now.graph.now job.now.task used }
    requires differing { IfSome differing.old (AreInRange job.now.operands.now) }
    ensures ended { IfOk result (λ e. IfSome e (IsEndedFor job.now (replacement_named used.entry))) }
    ensures differing { IfSome differing.new (AreInRange job.now.operands.now) }
{
    let (before, between) = drafted(job, used.by.is_some());
    let first = decide_over(alloc, job, used, before)?;
    if is_settled(&first) {
        return Ok(first);
    }
    let is_open = is_open && first.is_none();
    let later = decide_after(alloc, job, used, between, is_open, differing)?;
    Ok(first_short(first, later))
}

// The plans whose lines are drafted over the graph of the first plan: those before an adder by values, and those after
// it. Where an adder is used already, and the product isn't all that is claimed, another adder is in the way.
fn drafted(job: &Job<'_>, is_used: bool) -> (&'static [Try], &'static [Try]) {
    let claim = job.task.claim;
    let is_product = !claim.widths.has_addend() && matches!(claim.sign, Sign::Unsigned);
    if is_used && !is_product {
        (&DRAFTED, &[])
    } else {
        (&[], &DRAFTED)
    }
}

// What plans decide over the graph with an adder that is found by values, if one is, and over other graphs.
fn decide_after(
    alloc: Global,
    job: &Job<'_>,
    used: Shown<'_>,
    between: &[Try],
    is_open: bool,
    differing: &mut Option<Numbers>,
) -> Result<Option<Ended>, Memory>
    requires job { IsJob job.now }
    requires used { IsShown job.now.graph.now job.now.task used }
    requires differing { IfSome differing.old (AreInRange job.now.operands.now) }
    ensures ended { IfOk result (λ e. IfSome e (IsEndedFor job.now (replacement_named used.entry))) }
    ensures differing { IfSome differing.new (AreInRange job.now.operands.now) }
{
    match find_cut(alloc, job.graph, job.operands, job.task.conflicts)? {
        Some(found) => decide_with(alloc, job, used, found, between, is_open, differing),
        None => decide_further(alloc, job, used, between, differing),
    }
}

// What plans decide over the graph of the first plan, and over the graph with a reference beside it.
fn decide_further(
    alloc: Global,
    job: &Job<'_>,
    used: Shown<'_>,
    between: &[Try],
    differing: &mut Option<Numbers>,
) -> Result<Option<Ended>, Memory>
    requires job { IsJob job.now }
    requires used { IsShown job.now.graph.now job.now.task used }
    requires differing { IfSome differing.old (AreInRange job.now.operands.now) }
    ensures ended { IfOk result (λ e. IfSome e (IsEndedFor job.now (replacement_named used.entry))) }
    ensures differing { IfSome differing.new (AreInRange job.now.operands.now) }
{
    let first = decide_over(alloc, job, used, between)?;
    if is_settled(&first) {
        return Ok(first);
    }
    let later = decide_beside(alloc, job, differing)?;
    Ok(first_short(first, later))
}

// What plans decide over the graph with a reference beside it that is shown to be equal. Version 3 says that alone.
fn decide_beside(
    alloc: Global,
    job: &Job<'_>,
    differing: &mut Option<Numbers>,
) -> Result<Option<Ended>, Memory>
    requires job { IsJob job.now }
    requires differing { IfSome differing.old (AreInRange job.now.operands.now) }
    ensures ended { IfOk result (λ e. IfSome e (IsEndedWithFound job.now)) }
    ensures differing { IfSome differing.new (AreInRange job.now.operands.now) }
{
    if job.task.version != 3 {
        return Ok(None);
    }
    let mut guesses = Guesses::new(alloc, job.graph, job.operands, REFERENCES)?;
    let mut wrong = None;
    let ended = decide_by_guesses(alloc, job, &mut guesses, &mut wrong)?;
    if wrong.is_some() {
        *differing = wrong;
    }
    Ok(ended)
}

// The same for these references, each with half as many conflicts as the one before, until one settles it or shows the
// graph to be wrong.
fn decide_by_guesses(
    alloc: Global,
    job: &Job<'_>,
    guesses: &mut Guesses,
    wrong: &mut Option<Numbers>,
) -> Result<Option<Ended>, Memory>
    requires job { IsJob job.now }
    requires version { job.now.task.version ≡ 3 }
    requires wrong { IfSome wrong.old (AreInRange job.now.operands.now) }
    ensures ended { IfOk result (λ e. IfSome e (IsEndedWithFound job.now)) }
    ensures wrong { IfSome wrong.new (AreInRange job.now.operands.now) }
{
    let mut first = None;
    let mut left = job.task.conflicts;
    for _try in 0..REFERENCES {
        let ended = decide_by_guess(alloc, job, guesses, left, wrong)?;
        first = first_short(first, ended);
        if is_settled(&first) || wrong.is_some() {
            return Ok(first);
        }
        left /= 2;
    }
    Ok(first)
}

// The same for one reference, with so many conflicts.
fn decide_by_guess(
    alloc: Global,
    job: &Job<'_>,
    guesses: &mut Guesses,
    conflicts: u64,
    wrong: &mut Option<Numbers>,
) -> Result<Option<Ended>, Memory>
    requires job { IsJob job.now }
    requires version { job.now.task.version ≡ 3 }
    requires few { conflicts ≤ job.now.task.conflicts }
    requires wrong { IfSome wrong.old (AreInRange job.now.operands.now) }
    ensures ended { IfOk result (λ e. IfSome e (IsEndedWithFound job.now)) }
    ensures wrong { IfSome wrong.new (AreInRange job.now.operands.now) }
{
    match compare(alloc, job, guesses, conflicts)? {
        Compared::Equal(placed) => decide_with_reference(alloc, job, placed),
        Compared::Wrong(numbers) => {
            *wrong = Some(numbers);
            Ok(None)
        }
        Compared::Open => Ok(None),
    }
}

// What plans decide over the graph with what is placed beside it.
fn decide_with_reference(
    alloc: Global,
    job: &Job<'_>,
    placed: Placed<'_>,
) -> Result<Option<Ended>, Memory>
    requires job { IsJob job.now }
    requires version { job.now.task.version ≡ 3 }
    requires shown { IsShownBeside job.now.graph.now job.now.task.conflicts placed }
    requires agree { AgreeEverywhere placed.extended }
    ensures { IfOk result (λ e. IfSome e (IsEndedWithFound job.now)) }
{
    let ended = decide_over_placed(alloc, job, &placed)?;
    Ok(with_beside(ended, placed))
}

// What the first of the plans over it decides that keeps to its budget.
fn decide_over_placed(
    alloc: Global,
    job: &Job<'_>,
    placed: &Placed<'_>,
) -> Result<Option<Ended>, Memory>
    requires job { IsJob job.now }
    requires version { job.now.task.version ≡ 3 }
    requires shown { IsShownBeside job.now.graph.now job.now.task.conflicts placed.now }
    requires agree { AgreeEverywhere placed.now.extended }
    ensures { IfOk result (λ e. IfSome e (IsEndedOver job.now (Some (Beside placed.now.beside)))) }
{
    let shown = Shown::with_beside(placed);
    decide_over(alloc, job, shown, &BESIDE)
}

// What plans over it have decided, with it.
fn with_beside(ended: Option<Ended>, placed: Placed<'_>) -> Option<Ended>
    ensures { result ≡ option_map (over_replacement (Beside placed.entry.beside)) ended }
{
    let Placed { beside, .. } = placed;
    match ended {
        Some(ended) => Some(ended.over(Replacement::Beside(beside))),
        None => None,
    }
}

// What plans decide over the graph with the adder that was found, before and after some over other graphs.
fn decide_with(
    alloc: Global,
    job: &Job<'_>,
    used: Shown<'_>,
    found: Found<'_>,
    between: &[Try],
    is_open: bool,
    differing: &mut Option<Numbers>,
) -> Result<Option<Ended>, Memory>
    requires job { IsJob job.now }
    requires used { IsShown job.now.graph.now job.now.task used }
    requires differing { IfSome differing.old (AreInRange job.now.operands.now) }
    requires shown { IsShownRewriting job.now.graph.now job.now.task.conflicts
        found.cut found.extended found.log.lines }
    requires agree { AgreeEverywhere found.extended }
    ensures ended { IfOk result (λ e. IfSome e (IsEndedFor job.now (replacement_named used.entry))) }
    ensures differing { IfSome differing.new (AreInRange job.now.operands.now) }
{
    let (over, beyond) = decide_around(alloc, job, used, &found, between, is_open, differing)?;
    Ok(first_short(with_cut(over, found), beyond))
}

// What they decide over the graph with the adder, and what others decide beyond it, where the first isn't settled.
fn decide_around(
    alloc: Global,
    job: &Job<'_>,
    used: Shown<'_>,
    found: &Found<'_>,
    between: &[Try],
    is_open: bool,
    differing: &mut Option<Numbers>,
) -> Result<(Option<Ended>, Option<Ended>), Memory>
    requires job { IsJob job.now }
    requires used { IsShown job.now.graph.now job.now.task used }
    requires differing { IfSome differing.old (AreInRange job.now.operands.now) }
    requires shown { IsShownRewriting job.now.graph.now job.now.task.conflicts
        found.now.cut found.now.extended found.now.log.lines }
    requires agree { AgreeEverywhere found.now.extended }
    ensures over { IfOk result (λ r. IfSome r.0 (IsEndedOver job.now (Some (Adder found.now.cut)))) }
    ensures beyond { IfOk result (λ r. IfSome r.1 (IsEndedFor job.now (replacement_named used.entry))) }
    ensures differing { IfSome differing.new (AreInRange job.now.operands.now) }
{
    let over = decide_over_found(alloc, job, found, found_plans(job))?;
    if is_settled(&over) {
        return Ok((over, None));
    }
    let is_open = is_open && over.is_none();
    let (last, beyond) = decide_beyond(alloc, job, used, found, between, is_open, differing)?;
    Ok((first_short(over, last), beyond))
}

// What is tried over the graph with an adder at a cut that is found.
fn found_plans(job: &Job<'_>) -> &'static [Try] {
    if job.task.claim.widths.has_addend() {
        &FOUND_OF_SUM
    } else {
        &FOUND
    }
}

// What plans decide over other graphs; and over the graph with the adder at last, where that is open and they decide
// nothing.
fn decide_beyond(
    alloc: Global,
    job: &Job<'_>,
    used: Shown<'_>,
    found: &Found<'_>,
    between: &[Try],
    is_open: bool,
    differing: &mut Option<Numbers>,
) -> Result<(Option<Ended>, Option<Ended>), Memory>
    requires job { IsJob job.now }
    requires used { IsShown job.now.graph.now job.now.task used }
    requires differing { IfSome differing.old (AreInRange job.now.operands.now) }
    requires shown { IsShownRewriting job.now.graph.now job.now.task.conflicts
        found.now.cut found.now.extended found.now.log.lines }
    requires agree { AgreeEverywhere found.now.extended }
    ensures over { IfOk result (λ r. IfSome r.0 (IsEndedOver job.now (Some (Adder found.now.cut)))) }
    ensures beyond { IfOk result (λ r. IfSome r.1 (IsEndedFor job.now (replacement_named used.entry))) }
    ensures differing { IfSome differing.new (AreInRange job.now.operands.now) }
{
    match decide_further(alloc, job, used, between, differing)? {
        Some(beyond) => Ok((None, Some(beyond))),
        None => {
            let last = decide_at_end(alloc, job, found, is_open)?;
            Ok((last, None))
        }
    }
}

// What is decided with the whole budget over the graph with the adder, where that is open.
fn decide_at_end(
    alloc: Global,
    job: &Job<'_>,
    found: &Found<'_>,
    is_open: bool,
) -> Result<Option<Ended>, Memory>
    requires job { IsJob job.now }
    requires shown { IsShownRewriting job.now.graph.now job.now.task.conflicts
        found.now.cut found.now.extended found.now.log.lines }
    requires agree { AgreeEverywhere found.now.extended }
    ensures { IfOk result (λ e. IfSome e (IsEndedOver job.now (Some (Adder found.now.cut)))) }
{
    if is_open {
        decide_over_found(alloc, job, found, &FOUND_AT_LAST)
    } else {
        Ok(None)
    }
}

// What the first of these plans over the graph with an adder decides that keeps to its budget.
fn decide_over_found(
    alloc: Global,
    job: &Job<'_>,
    found: &Found<'_>,
    plans: &[Try],
) -> Result<Option<Ended>, Memory>
    requires job { IsJob job.now }
    requires shown { IsShownRewriting job.now.graph.now job.now.task.conflicts
        found.now.cut found.now.extended found.now.log.lines }
    requires agree { AgreeEverywhere found.now.extended }
    ensures { IfOk result (λ e. IfSome e (IsEndedOver job.now (Some (Adder found.now.cut)))) }
{
    let shown = Shown::with_adder(&found.cut, &found.extended, &found.log);
    decide_over(alloc, job, shown, plans)
}

// What plans over the graph with an adder that was found have decided, with its cut.
fn with_cut(ended: Option<Ended>, found: Found<'_>) -> Option<Ended>
    ensures { result ≡ option_map (over_replacement (Adder found.entry.cut)) ended }
{
    let Found { cut, .. } = found;
    match ended {
        Some(ended) => Some(ended.over(Replacement::Adder(cut))),
        None => None,
    }
}

// Before a plan has more than the small budget: most graphs are decided here.
fn decide_soon(alloc: Global, job: &Job<'_>, used: Shown<'_>) -> Result<Option<Ended>, Memory>
    requires job { IsJob job.now }
    requires used { IsShown job.now.graph.now job.now.task used }
    ensures { IfOk result (λ e. IfSome e (IsEndedFor job.now (replacement_named used.entry))) }
{
    if let Some(wrong) = seen_wrong(alloc, job)? {
        return Ok(Some(Ended::wrong(wrong)));
    }
    match decide_over(alloc, job, used, &SOON)? {
        Some(soon) => Ok(Some(soon)),
        None => decide_on_few(alloc, job),
    }
}

// That a graph is wrong, if it is on values of its inputs with few ones.
fn decide_on_few(alloc: Global, job: &Job<'_>) -> Result<Option<Ended>, Memory>
    requires { IsJob job.now }
    ensures { IfOk result (λ e. IfSome e (IsEndedWithFound job.now)) }
{
    match wrong_on_few(alloc, job, FEW)? {
        Some(wrong) => Ok(Some(Ended::wrong(wrong))),
        None => Ok(None),
    }
}

// With the whole budget, where values of the inputs with few ones don't show that the graph is wrong, the slice plan
// over the graph with the adder that is used, if any, the slice plan over the graph alone, and the plain plan.
fn decide_at_last(
    alloc: Global,
    job: &Job<'_>,
    alone: Shown<'_>,
    used: Shown<'_>,
    differing: Option<Numbers>,
) -> Result<Decision, Memory>
    requires job { IsJob job.now }
    requires alone { IsShown job.now.graph.now job.now.task alone }
    requires lone { replacement_named alone ≡ None }
    requires used { IsShown job.now.graph.now job.now.task used }
    requires differing { IfSome differing (AreInRange job.now.operands.now) }
    ensures { IfOk result (IsDecision job.now.graph.now job.now.task (replacement_named used.entry)) }
{
    if let Some(wrong) = wrong_on_few(alloc, job, MORE)? {
        return Ok(Decision::Wrong(wrong));
    }
    let mut tried = Vec::new(alloc);
    if let Some(decision) = try_slices(alloc, job, alone, used, &mut tried)? {
        return Ok(decision);
    }
    match reduce_plainly(alloc, job, alone)? {
        Plainly::Decided(decision) => Ok(decision),
        Plainly::Passed { step, size } => undecided(alloc, job, tried, step, size, differing),
    }
}

// That all plans passed the budget; or that the graph is wrong, if it is seen to be and values with few ones show where.
fn undecided(
    alloc: Global,
    job: &Job<'_>,
    tried: Vec<Tried>,
    plain_step: u64,
    plain_size: u64,
    differing: Option<Numbers>,
) -> Result<Decision, Memory>
    requires job { IsJob job.now }
    requires differing { IfSome differing (AreInRange job.now.operands.now) }
    requires first { IsFirstAbove job.now.graph.now job.now.task.claim job.now.task.budget plain_step plain_size }
    requires many { HaveManyOnes job.now.graph.now job.now.operands.now.claim }
    ensures { IfOk result (DecidesAtLast job.now.graph.now job.now.task tried.items) }
{
    let seen = see(alloc, job, differing)?;
    if seen.is_some() {
        if let Some(wrong) = wrong_on_few(alloc, job, LATE)? {
            return Ok(Decision::Wrong(wrong));
        }
    }
    Ok(Decision::Undecided {
        tried,
        plain_step,
        plain_size,
        seen,
    })
}

// What the first of these plans over an extended graph decides that keeps to its budget, and comes to no pair past the
// limits; or else the first that keeps to its budget, with its long lines in several.
fn decide_over(
    alloc: Global,
    job: &Job<'_>,
    shown: Shown<'_>,
    plans: &[Try],
) -> Result<Option<Ended>, Memory>
    requires job { IsJob job.now }
    requires shown { IsShown job.now.graph.now job.now.task shown }
    ensures { IfOk result (λ e. IfSome e (IsEndedOver job.now (replacement_named shown.entry))) }
{
    let mut first = None;
    for &plan in plans {
        let ended = decide_by(alloc, job, shown, plan)?;
        first = first_short(first, ended);
        if is_settled(&first) {
            return Ok(first);
        }
    }
    Ok(with_short_lines(alloc, job, shown, first))
}

// The same, where a pair that is past the limits is written anew.
fn with_short_lines(
    alloc: Global,
    job: &Job<'_>,
    shown: Shown<'_>,
    ended: Option<Ended>,
) -> Option<Ended>
    requires job { IsJob job.now }
    requires shown { IsShown job.now.graph.now job.now.task shown }
    requires over { IfSome ended (IsEndedOver job.now (replacement_named shown)) }
    ensures { IfSome result (IsEndedOver job.now (replacement_named shown.entry)) }
{
    match ended {
        Some(ended) => {
            let decision = shortened(alloc, job, shown, ended.decision);
            Some(Ended::of(decision, &job.limits))
        }
        None => None,
    }
}

// What one of them decides, if it keeps to its budget.
fn decide_by(
    alloc: Global,
    job: &Job<'_>,
    shown: Shown<'_>,
    plan: Try,
) -> Result<Option<Ended>, Memory>
    requires job { IsJob job.now }
    requires shown { IsShown job.now.graph.now job.now.task shown }
    ensures { IfOk result (λ e. IfSome e (IsEndedOver job.now (replacement_named shown.entry))) }
{
    let (lines, order, budget) = plan;
    let bits = job.operands.a_width().max(job.operands.b_width());
    let budget = job.task.budget.min(most_within(budget, bits));
    let decided = match lines {
        Lines::Reduced => decide_along(alloc, job, shown, order, budget)?,
        Lines::Drafted => decide_by_drafts(alloc, job, shown, order, budget)?,
    };
    match decided {
        Some(decision) => Ok(Some(Ended::of(decision, &job.limits))),
        None => Ok(None),
    }
}

// What the plan of this order decides, where it keeps to the budget.
fn decide_along(
    alloc: Global,
    job: &Job<'_>,
    shown: Shown<'_>,
    order: Order,
    budget: u64,
) -> Result<Option<Decision>, Memory>
    requires job { IsJob job.now }
    requires shown { IsShown job.now.graph.now job.now.task shown }
    requires within { budget ≤ job.now.task.budget }
    ensures { IfOk result (λ d. IfSome d
        (Decides job.now.graph.now job.now.task (replacement_named shown.entry))) }
{
    match reduce_along(alloc, job, shown, order, budget)? {
        Outcome::Decided(decision) => Ok(Some(decision)),
        Outcome::Passed { .. } => Ok(None),
    }
}

// The slice plan with the whole budget over the graph with the adder that is used, if any, and then over the graph alone;
// where they pass that, both were tried.
fn try_slices(
    alloc: Global,
    job: &Job<'_>,
    alone: Shown<'_>,
    used: Shown<'_>,
    tried: &mut Vec<Tried>,
) -> Result<Option<Decision>, Memory>
    requires job { IsJob job.now }
    requires alone { IsShown job.now.graph.now job.now.task alone }
    requires lone { replacement_named alone ≡ None }
    requires used { IsShown job.now.graph.now job.now.task used }
    requires empty { tried.old.items ≡ [] }
    ensures some { IfOk result (λ d. IfSome d
        (IsDecision job.now.graph.now job.now.task (replacement_named used.entry))) }
    ensures none { IfOk result (λ d. IsNone d →
        AreTried job.now.graph.now job.now.task.claim job.now.task.budget (replacement_named used.entry) tried.new.items) }
{
    if let Some(decision) = try_whole(alloc, job, used, tried)? {
        return Ok(Some(decision));
    }
    if used.by.is_some() {
        return try_whole(alloc, job, alone, tried);
    }
    Ok(None)
}

// The slice plan with the whole budget over an extended graph; where it passes that, it was tried.
fn try_whole(
    alloc: Global,
    job: &Job<'_>,
    shown: Shown<'_>,
    tried: &mut Vec<Tried>,
) -> Result<Option<Decision>, Memory>
    requires job { IsJob job.now }
    requires shown { IsShown job.now.graph.now job.now.task shown }
    ensures some { IfOk result (λ d. IfSome d
        (IsEnd job.now.graph.now job.now.task (replacement_named shown.entry))) }
    ensures none { IfOk result (λ d. IsNone d → (last : TriedPlan) ×
        (tried.new.items ≡ tried.old.items ++ last ∷ []) ×
        IsTried job.now.graph.now job.now.task.claim job.now.task.budget (replacement_named shown.entry) last) }
{
    match reduce_along(alloc, job, shown, Order::Slices, job.task.budget)? {
        Outcome::Decided(decision) => Ok(Some(shortened(alloc, job, shown, decision))),
        Outcome::Passed { plan, step, size } => {
            let last = frontier_after(alloc, &plan, step, size, shown.by.is_some())?;
            tried.push(last)?;
            Ok(None)
        }
    }
}

// How many monomials that are.
fn most_within(budget: Budget, bits: u32) -> u64 {
    match budget {
        Budget::Few => 512,
        Budget::Small(times) => small_budget(bits).saturating_mul(times),
        Budget::Cubed => square(bits).saturating_mul(u64::from(bits)) / 12,
        Budget::Whole => u64::MAX,
    }
}

// The budget of a plan that is tried before it is known whether it ends soon: that of made multipliers.
fn small_budget(bits: u32) -> u64 {
    square(bits).saturating_mul(8).saturating_add(64)
}

fn square(bits: u32) -> u64 {
    u64::from(bits).saturating_mul(u64::from(bits))
}

// That a graph is wrong which some fixed values of its inputs show to be, if values with few ones do too.
fn seen_wrong(alloc: Global, job: &Job<'_>) -> Result<Option<Difference>, Memory>
    requires { IsJob job.now }
    ensures { IfOk result (λ d. IfSome d (IsWrong job.now.graph.now job.now.task.claim)) }
{
    let most = most_ones_within(job.graph, MORE);
    let numbers = least_seen(alloc, job.graph, job.operands, most)?;
    wrong_at(alloc, job, numbers)
}

// That a graph is wrong, if it is on values of its inputs with at most two ones, or with as many more as some work is
// enough for.
fn wrong_on_few(alloc: Global, job: &Job<'_>, work: u64) -> Result<Option<Difference>, Memory>
    requires { IsJob job.now }
    ensures some { IfOk result (λ d. IfSome d (IsWrong job.now.graph.now job.now.task.claim)) }
    ensures none { IfOk result (λ d. IsNone d → HaveManyOnes job.now.graph.now job.now.operands.now.claim) }
{
    let most = most_ones_within(job.graph, work);
    let numbers = least_within(alloc, job.graph, job.operands, most)?;
    wrong_at(alloc, job, numbers)
}

// That a graph is wrong, where it is at some numbers and at none before them.
fn wrong_at(
    alloc: Global,
    job: &Job<'_>,
    numbers: Option<Numbers>,
) -> Result<Option<Difference>, Memory>
    requires job { IsJob job.now }
    requires least { IfSome numbers (AreLeast job.now.graph.now job.now.operands.now) }
    ensures some { IfOk result (λ d. IfSome d (IsWrong job.now.graph.now job.now.task.claim)) }
    ensures none { IfOk result (λ d. IsNone d → IsNone numbers) }
{
    match numbers {
        Some(numbers) => Ok(Some(refute(alloc, job, numbers)?)),
        None => Ok(None),
    }
}

// A graph in memory is decided, and a graph file is verified.
ghost use Rattle.std.specs.Prelude.{◌≡◌, ◌≤◌, IfOk, IfSome, None, OnErr};
ghost use Rattle.command_core.specs.declared.stop.Stop.TheVariants as stop;
ghost use Rattle.joint_prover.specs.declared.verdict.Verdict.TheVariants.{Stopped};
ghost use Rattle.graph_core.specs.Aiger.Sizes.{IsSizedAs};
ghost use Rattle.graph_core.specs.Graph.{Aig};
ghost use Rattle.graph_core.specs.Graph.Operands.{profile_of};
ghost use Rattle.command_core.specs.Files.{files_of};
ghost use Rattle.mv_desk.specs.View.{KeepsTelling, OpensFiles};
ghost use Rattle.mv_text.specs.LineReading.{lengths_of};
ghost use Rattle.pair_core.specs.Texts.{CanBeWritten};
ghost use Rattle.command_core.specs.declared.task.Task.{Task as TaskOf};
ghost use Rattle.joint_prover.specs.Budgets.{ProvesEnough};
ghost use Rattle.joint_prover.specs.Notes.{IsFound, IsNote, replacement_in, replacement_of};
ghost use Rattle.joint_prover.specs.Replacements.{IsVersion};
ghost use Rattle.joint_prover.specs.Decisions.{IsDecision};
ghost use Rattle.joint_prover.specs.Endings.{HasWritable, IsJob, IsTold, IsToldAs, IsToldPair, note_beside, replacement_of_found};
ghost use Rattle.stage_rewriter.specs.Rewriting.{Agrees, IsRewriting};
ghost use Rattle.joint_prover.specs.Verdicts.{IsVerdict};
ghost use Rattle.command_core.specs.Written.{ReportStays};

use crate::decision::Decision;
use crate::note::{Note, make_note, numbers_of};
use crate::plans::decide_by_plans;
use crate::replacement::Replacement;
use crate::shown::Shown;
use crate::task::Job;
use crate::verdict::Verdict;
use command_core::{Names, Stop, Task, read_graph};
use graph_core::{Graph, Memory, Operands};
use mv_desk::{Desk, Limits, Slot};
use pair_core::{Pair, write_pair};
use pair_limits::first_too_long;
use ripple_graft::Extended;
use stage_rewriter::{Rewriting, rewrite};
use std::alloc::Global;

/// The verdict on a graph file, and what became of a rewriting of its final stage, where the verdict is `Proved`,
/// `Wrong` or `Undecided`.
pub fn verify<D: Desk>(
    alloc: Global,
    desk: &mut D,
    task: &Task,
    limits: &Limits,
    names: &Names<&str>,
) -> (Verdict, Option<Note>)
    requires { IsVersion task.now.version }
    ensures verdict { IsVerdict limits.now task.now (files_of names.now)
        (D.seen desk.old) (D.seen desk.new) result.0 result.1 }
    // With enough budget a made multiplier with a ripple-carry adder is proved, but for a fault or out of memory.
    ensures enough { ProvesEnough limits.now.graph task.now (files_of names.now)
        (D.seen desk.old) (D.seen desk.new) result.0 }
    ensures report { ReportStays (D.seen desk.old) (D.seen desk.new) }
    // The graph file, failed or not; files that are created don't count.
    ensures opened { OpensFiles 1 (D.seen desk.old) (D.seen desk.new) }
    ensures later { (D.seen desk.old).write_faults ≤ (D.seen desk.new).write_faults }
    ensures tells { KeepsTelling (D.seen desk.old) (D.seen desk.new) }
{
    let profile = task.claim.profile();
    match read_graph(alloc, desk, Slot::Graph, names.graph, profile, limits) {
        Ok(graph) => tell(desk, decide(alloc, task, limits, &graph), limits, names),
        Err(why) => (Verdict::Stopped(why), None),
    }
}

/// What is decided of a graph, and what became of a rewriting of its final stage. A pair within the limits comes before
/// one that isn't.
pub fn decide(
    alloc: Global,
    task: &Task,
    limits: &Limits,
    graph: &Graph,
) -> Result<(Decision, Note), Memory>
    requires sized { IsSizedAs (profile_of task.now.claim.widths) graph.now }
    requires version { IsVersion task.now.version }
    ensures decision { IfOk result (λ r. IsDecision graph.now task.now (replacement_of r.1) r.0) }
    ensures note { IfOk result (λ r. IsNote graph.now task.now.claim task.now.conflicts r.1) }
{
    // without faults
    let _max = graph.max();
    let operands = Operands::under(alloc, graph, task.claim)?;
    let rewritten = rewrite(alloc, graph, &operands, task.conflicts)?;
    let job = Job {
        graph,
        operands: &operands,
        task: *task,
        limits: *limits,
    };
    let (decision, found) = decide_rewritten(alloc, &job, &rewritten)?;
    Ok((
        decision,
        make_note(task.claim.widths.has_addend(), rewritten, found),
    ))
}

// What is decided of a graph, with the adder in place of its final stage where this rewriting came to one, and what was
// found.
fn decide_rewritten(
    alloc: Global,
    job: &Job<'_>,
    rewritten: &Rewriting<'_>,
) -> Result<(Decision, Option<Replacement>), Memory>
    requires job { IsJob job.now }
    requires rewriting { IsRewriting job.now.graph.now job.now.operands.now job.now.task.conflicts rewritten.now }
    requires agrees { Agrees rewritten.now }
    ensures found { IfOk result (λ r. IfSome r.1 (IsFound job.now.graph.now)) }
    ensures decision { IfOk result (λ r. IsDecision job.now.graph.now job.now.task
        (replacement_of_found (replacement_in rewritten.now) r.1) r.0) }
{
    let extended = Extended::without_cut(job.graph);
    let alone = Shown::alone(&extended);
    let used = Shown::used(rewritten, alone);
    decide_by_plans(alloc, job, alone, used, numbers_of(rewritten))
}

// The verdict that tells what was decided, and the note. Both certificates are written where the graph does what is
// claimed.
fn tell<D: Desk>(
    desk: &mut D,
    decided: Result<(Decision, Note), Memory>,
    limits: &Limits,
    names: &Names<&str>,
) -> (Verdict, Option<Note>)
    requires { (g : Aig) × (task : TaskOf) × IfOk decided (λ r. IsDecision g task (replacement_of r.1) r.0) }
    ensures told { IfOk decided (λ r. IsTold (lengths_of limits.now) (files_of names.now)
        (D.seen desk.old) (D.seen desk.new) r.0 r.1 result.0 result.1) }
    ensures memory { OnErr decided (result ≡ (Stopped stop.Memory, None)) }
    ensures untouched { OnErr decided (D.seen desk.new ≡ D.seen desk.old) }
    ensures opened { (D.seen desk.new).opened ≡ (D.seen desk.old).opened }
    ensures later { (D.seen desk.old).write_faults ≤ (D.seen desk.new).write_faults }
    ensures tells { KeepsTelling (D.seen desk.old) (D.seen desk.new) }
{
    match decided {
        Ok((decision, note)) => {
            let verdict = tell_decision(desk, decision, limits, names);
            let noted = note_beside(&verdict, note);
            (verdict, noted)
        }
        Err(_) => (Verdict::Stopped(Stop::Memory), None),
    }
}

// The verdict that tells a decision. Both certificates are written where the graph does what is claimed.
fn tell_decision<D: Desk>(
    desk: &mut D,
    decision: Decision,
    limits: &Limits,
    names: &Names<&str>,
) -> Verdict
    requires { HasWritable decision }
    ensures told { IsToldAs (lengths_of limits.now) (files_of names.now)
        (D.seen desk.old) (D.seen desk.new) decision result }
    ensures opened { (D.seen desk.new).opened ≡ (D.seen desk.old).opened }
    ensures later { (D.seen desk.old).write_faults ≤ (D.seen desk.new).write_faults }
    ensures tells { KeepsTelling (D.seen desk.old) (D.seen desk.new) }
{
    match decision {
        Decision::Proved(pair) => write(desk, &pair, limits, names),
        Decision::Wrong(difference) => Verdict::Wrong(difference),
        Decision::Undecided {
            tried,
            plain_step,
            plain_size,
            seen,
        } => Verdict::Undecided {
            tried,
            plain_step,
            plain_size,
            seen,
        },
    }
}

// The verdict that tells a pair, which is written.
fn write<D: Desk>(desk: &mut D, pair: &Pair, limits: &Limits, names: &Names<&str>) -> Verdict
    requires { CanBeWritten pair.now }
    ensures told { IsToldPair (lengths_of limits.now) (files_of names.now)
        (D.seen desk.old) (D.seen desk.new) pair.now result }
    ensures opened { (D.seen desk.new).opened ≡ (D.seen desk.old).opened }
    ensures later { (D.seen desk.old).write_faults ≤ (D.seen desk.new).write_faults }
    ensures tells { KeepsTelling (D.seen desk.old) (D.seen desk.new) }
{
    let too_long = first_too_long(pair, limits);
    match write_pair(desk, pair, names) {
        Ok(()) => Verdict::Proved { too_long },
        Err(_) => Verdict::Stopped(Stop::WriteFault),
    }
}

// The note beside a verdict, with each but a stop.
fn note_beside(verdict: &Verdict, note: Note) -> Option<Note>
    ensures { result ≡ note_beside verdict.now note }
{
    match verdict {
        Verdict::Stopped(_) => None,
        _ => Some(note),
    }
}

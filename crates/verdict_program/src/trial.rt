// `trial`: the multiplier that a number names is made, and verified and checked in memory.
ghost use Rattle.std.specs.Prelude.{◌≡◌, ◌<◌, ◌≤◌, ◌^◌, [], length, unwrap_or};
ghost use Rattle.graph_core.specs.Aiger.{IsPacked};
ghost use Rattle.graph_core.specs.Aiger.Writing.{written};
ghost use Rattle.command_core.specs.Files.{files_of};
ghost use Rattle.mv_desk.specs.HonestDesk.{held_of};
ghost use Rattle.verdict_program.specs.declared.tested.Tested.TheVariants.{Memory};
ghost use Rattle.verdict_program.specs.Making.{sample_graph};
ghost use Rattle.graph_core.specs.Graph.Operands.{product_under};
ghost use Rattle.graph_core.specs.declared.order.Order.TheVariants.{Separate};
ghost use Rattle.joint_prover.specs.Verdicts.{IsVerdict};
ghost use Rattle.verdict_program.specs.Trial.{HoldsGraph, HoldsTrial, IsOfMemory, IsTested, multiplier_of, no_limits, trial_files, trial_task};

use crate::made::Made;
use crate::make_file::create_file;
use crate::sample::sample_of;
use crate::tested::{Multiplier, Tested};
use command_core::{Names, Stop, Task};
use command_line::{BUDGET, CONFLICTS};
use graph_core::{Claim, Graph, Order, Sign, Widths};
use graph_maker::make;
use joint_checker::{Checked, check};
use joint_prover::{Note, Verdict, verify};
use mv_desk::{Desk, HonestDesk, Limits};
use std::alloc::Global;

// As long as a file in memory can be.
const NO_LIMITS: Limits = Limits {
    graph: u64::MAX,
    certificate: u64::MAX,
    line: u64::MAX,
};

// What is claimed of a made multiplier.
const PRODUCT: Claim = Claim {
    order: Order::Separate,
    sign: Sign::Unsigned,
    widths: Widths::Equal { add: false },
};

/// Makes the multiplier that a number names, gives a verdict on it within the default budgets, and where it is proved
/// judges the certificates. All files are in memory, and what is refused there is out of memory.
pub fn trial(alloc: Global, number: u64) -> Tested
    ensures { IsTested (multiplier_of number) result }
{
    let sample = sample_of(number);
    match make(alloc, sample.kind, sample.bits, sample.adder) {
        Ok(graph) => {
            let gates = graph.gates().len() as u64;
            test(alloc, Multiplier { sample, gates }, &graph)
        }
        Err(_) => Tested::Memory,
    }
}

// The verdict on a made graph, and the check.
fn test(alloc: Global, multiplier: Multiplier, graph: &Graph) -> Tested
    requires made { graph.now ≡ sample_graph multiplier.sample }
    requires packed { IsPacked (written graph.now) }
    requires some { 1 ≤ multiplier.sample.bits }
    requires narrow { multiplier.sample.bits ≤ 64 }
    ensures { IsTested multiplier result }
{
    let mut desk = HonestDesk::new(alloc);
    match create_file(&mut desk, graph, names().graph) {
        Made::Written => judge(alloc, &mut desk, multiplier),
        Made::Stopped(why) => refused(why),
    }
}

// The verdict on the graph that a desk holds, and where it is proved the check.
fn judge(alloc: Global, desk: &mut HonestDesk, multiplier: Multiplier) -> Tested
    requires held { HoldsGraph (⟦<HonestDesk as Desk>⟧.seen desk.old) multiplier.sample }
    requires some { 1 ≤ multiplier.sample.bits }
    requires narrow { multiplier.sample.bits ≤ 64 }
    ensures { IsTested multiplier result }
{
    let names = names();
    measure(desk, names.graph);
    let (verdict, note) = verdict_on(alloc, desk, &names);
    match verdict {
        Verdict::Proved { .. } => check_pair(alloc, desk, multiplier, note.unwrap()),
        Verdict::Undecided {
            plain_step,
            plain_size,
            ..
        } => Tested::Undecided {
            multiplier,
            step: plain_step,
            size: plain_size,
            note: note.unwrap(),
        },
        Verdict::Stopped(why) => refused(why),
        _ => unreachable!(),
    }
}

// The verdict on a file, within the default budgets.
fn verdict_on(alloc: Global, desk: &mut HonestDesk, names: &Names<&str>) -> (Verdict, Option<Note>)
    ensures { IsVerdict no_limits trial_task (files_of names.now)
        (⟦<HonestDesk as Desk>⟧.seen desk.old) (⟦<HonestDesk as Desk>⟧.seen desk.new) result.0 result.1 }
{
    let task = Task {
        claim: PRODUCT,
        budget: BUDGET,
        conflicts: CONFLICTS,
        version: 1,
    };
    verify(alloc, desk, &task, &NO_LIMITS, names)
}

// The check of the certificates that a desk holds.
fn check_pair(alloc: Global, desk: &mut HonestDesk, multiplier: Multiplier, note: Note) -> Tested
    requires made { HoldsGraph (⟦<HonestDesk as Desk>⟧.seen desk.old) multiplier.sample }
    requires pair { HoldsTrial (⟦<HonestDesk as Desk>⟧.seen desk.old) note }
    ensures { IsTested multiplier result }
{
    let names = names();
    measure(desk, names.clauses);
    measure(desk, names.algebra);
    match check(alloc, desk, PRODUCT, &NO_LIMITS, &names) {
        Checked::Accepted => Tested::Accepted { multiplier, note },
        Checked::Stopped(why) => refused(why),
        Checked::Refused(_) => unreachable!(),
    }
}

// What is refused in memory is out of memory, also to write: no read fails there, and the files are as they should be.
fn refused(why: Stop) -> Tested
    requires { IsOfMemory why }
    ensures { result ≡ Memory }
{
    match why {
        Stop::WriteFault | Stop::Memory => Tested::Memory,
        _ => unreachable!(),
    }
}

// How long a file is that a desk holds: no file in memory is longer than any limit.
fn measure(desk: &HonestDesk, name: &str) -> usize
    ensures count { result ≡ length (unwrap_or (held_of desk.now name.now) []) }
    ensures short { result < 2 ^ 64 }
{
    match desk.bytes(name) {
        Some(bytes) => bytes.len(),
        None => 0,
    }
}

// The names of the files in memory.
fn names() -> Names<&'static str>
    ensures { files_of result ≡ trial_files }
{
    Names {
        graph: "graph",
        clauses: "clauses",
        algebra: "algebra",
    }
}

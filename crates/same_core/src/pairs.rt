// The two graphs of a pair, and their merged gates.
ghost use Rattle.std.specs.Prelude.{IfErr, IfOk, OnOk};
ghost use Rattle.mv_desk.specs.Calls.{Inspects};
ghost use Rattle.mv_desk.specs.View.{KeepsTelling, OpensFiles};
ghost use Rattle.same_core.specs.Answers.{same_of_pair};
ghost use Rattle.same_core.specs.Deciding.{OpensForCompared, ReadsGraphs};
ghost use Rattle.same_core.specs.Files.{compared_files_of, compared_texts_of};
ghost use Rattle.same_core.specs.Pairs.{IsPairFail, IsReadPair};

use crate::merged::{MergeFail, Merged, merge};
use command_core::{SameNames, Stop, read_graph};
use graph_core::{Graph, Profile};
use mv_desk::{Desk, Limits, Slot};
use std::alloc::Global;

// Why two graphs aren't merged.
#[derive(Clone, Copy)]
pub(crate) enum PairFail {
    Shapes,
    // A graph isn't read, or memory is wanted.
    Stopped(Stop),
}

impl From<Stop> for PairFail {
    ghost use Rattle.std.specs.Prelude.{◌≡◌};
    ghost use Rattle.same_core.specs.declared.pairs.PairFail.TheVariants as pair;

    ghost from_gives = { λ why fail. fail ≡ pair.Stopped why };

    fn from(why: Stop) -> Self {
        PairFail::Stopped(why)
    }
}

impl From<MergeFail> for PairFail {
    ghost use Rattle.std.specs.Prelude.{◌≡◌};
    ghost use Rattle.same_core.specs.Answers.{answer_of_merge};

    ghost from_gives = { λ why fail. fail ≡ answer_of_merge why };

    fn from(fail: MergeFail) -> Self {
        match fail {
            MergeFail::Shape => PairFail::Shapes,
            MergeFail::Memory => PairFail::Stopped(Stop::Memory),
        }
    }
}

// The first graph, and the merged gates of both. The files are opened in their order, and only when they are needed.
pub(crate) fn read_pair<D: Desk>(
    alloc: Global,
    desk: &mut D,
    limits: &Limits,
    names: &SameNames<&str>,
) -> Result<(Graph, Merged), PairFail>
    ensures pair { IfOk result (λ pair. IsReadPair limits.now.graph
        (compared_texts_of (D.seen desk.old) (compared_files_of names.now)) pair.0 pair.1) }
    ensures refused { IfErr result (IsPairFail limits.now (compared_files_of names.now) (D.seen desk.old) (D.seen desk.new)) }
    ensures opened_all { OnOk result (OpensFiles 2 (D.seen desk.old) (D.seen desk.new)) }
    ensures opened { IfErr result (λ fail. OpensForCompared (same_of_pair fail) (D.seen desk.old) (D.seen desk.new)) }
    ensures inspects { Inspects (D.seen desk.old) (D.seen desk.new) }
    ensures reads { OnOk result (ReadsGraphs (D.seen desk.old) (D.seen desk.new)) }
    ensures tells { KeepsTelling (D.seen desk.old) (D.seen desk.new) }
{
    let graph = read_graph(alloc, desk, Slot::Graph, names.graph, Profile::Any, limits)?;
    let other = read_graph(alloc, desk, Slot::Other, names.other, Profile::Any, limits)?;
    let merged = merge(alloc, &graph, &other)?;
    Ok((graph, merged))
}

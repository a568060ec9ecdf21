// What is used of a pair of certificates that was read.
ghost use Rattle.std.specs.Prelude.{IfOk};
ghost use Rattle.joint_checker.specs.Judged.{IsJudgedPair};
ghost use Rattle.miter_encoder.specs.ColumnGoals.{AreGoalsOf};
ghost use Rattle.joint_checker.specs.Judged.{extended_of};
ghost use Rattle.drup_text.specs.Headers.{IsHeaderOf, extended_with};
ghost use Rattle.pair_trim.specs.Choosing.{IsChosen};

use crate::answer::Trimmed;
use crate::imports::{imported_numbers, renumber};
use crate::keeping::keep;
use crate::kept_lines::keep_lines;
use drup_text::Header;
use graph_core::{Claim, Graph, Memory};
use joint_checker::{Judged, extend};
use miter_encoder::{Goals, goals};
use pair_core::Pair;
use std::alloc::Global;

/// What is used: lines by the closing line, clauses by goals and by the imports of kept lines, which name them by new
/// numbers.
pub(crate) fn choose(alloc: Global, claim: Claim, judged: Judged) -> Result<Trimmed, Memory>
    requires { IsJudgedPair claim judged }
    ensures { IfOk result (IsChosen judged) }
{
    let goals = goals_of(alloc, &judged.graph, &judged.header)?;
    let closed = judged.closed;
    let record = closed.record;
    let mut lines = keep_lines(alloc, record.lines, closed.id)?;
    let imports = imported_numbers(alloc, &lines)?;
    let kept = keep(
        alloc,
        goals.as_slice(),
        &imports,
        &judged.recorded.added,
        &judged.recorded.uses,
    )?;
    renumber(&mut lines, &kept.ranks);
    let pair = Pair {
        header: judged.header,
        clauses: kept.lines,
        algebra: lines,
        terms: record.terms,
        closing: closed.id,
    };
    Ok(Trimmed {
        pair,
        uses: kept.uses,
        of_clauses: judged.of_clauses,
        of_algebra: closed.lines,
    })
}

// The goals of the graph with the blocks of a header, and with what stands beside.
fn goals_of(alloc: Global, graph: &Graph, header: &Header) -> Result<Goals, Memory>
    requires { IsHeaderOf graph.now header.now }
    ensures { IfOk result (AreGoalsOf (extended_with graph.now header.now)) }
{
    let extended = extend(alloc, graph, header)?;
    goals(alloc, &extended)
}

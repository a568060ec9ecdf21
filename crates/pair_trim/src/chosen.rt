// What is kept of lists, by marks, and new numbers.
ghost use Rattle.std.specs.Prelude.{◌≡◌, ◌<◌, ◌++◌, ◌∷◌, [], length, map, slice_index, IfOk, OnOk, if◌then◌else◌};
ghost use Rattle.std.specs.List.{All};
ghost use Rattle.clause_core.specs.KeptClauses.{added_lines, chosen};
ghost use Rattle.pair_trim.specs.Marking.{AreRanks};

use crate::renaming::renamed;
use clause_core::{ClauseList, Line};
use drup_checker::Numbers;
use graph_core::Memory;
use poly_text::PacLine;
use std::alloc::Global;

/// Lines that add the clauses whose marks are set.
pub(crate) fn choose_lines(
    alloc: Global,
    marks: &[bool],
    clauses: &ClauseList,
) -> Result<Vec<Line>, Memory>
    requires { length marks.now ≡ length clauses.now }
    ensures { IfOk result (λ kept. kept.items ≡ added_lines (chosen marks.now clauses.now)) }
{
    let mut kept = Vec::new(alloc);
    for place in 0..clauses.len() {
        if marks[place] {
            kept.push(Line::Add(clauses.get(place).copy(alloc)?))?;
        }
    }
    Ok(kept)
}

/// The lines of an algebra certificate whose marks are set.
pub(crate) fn choose_pac(
    alloc: Global,
    marks: &[bool],
    lines: Vec<PacLine>,
) -> Result<Vec<PacLine>, Memory>
    requires { length marks.now ≡ length lines.items }
    ensures { IfOk result (λ kept. kept.items ≡ chosen marks.now lines.items) }
{
    let mut kept = Vec::new(alloc);
    let mut place = 0;
    for line in lines {
        let is_kept = marks[place];
        push_pac_if(&mut kept, line, is_kept)?;
        place += 1;
    }
    Ok(kept)
}

/// The numbers whose marks are set, each of which becomes its rank.
pub(crate) fn choose_uses(
    alloc: Global,
    marks: &[bool],
    uses: &[Numbers],
    ranks: &[u64],
) -> Result<Vec<Numbers>, Memory>
    requires long { length marks.now ≡ length uses.now }
    requires low { All (All (λ n. n < length ranks.now)) uses.now }
    ensures { IfOk result (λ kept. kept.items ≡ chosen marks.now (map (map (slice_index ranks.now)) uses.now)) }
{
    let mut kept = Vec::new(alloc);
    for place in 0..uses.len() {
        if marks[place] {
            kept.push(renamed(alloc, &uses[place], ranks)?)?;
        }
    }
    Ok(kept)
}

/// How many of the first marks are set, for each number from 0 on.
pub(crate) fn ranks_of(alloc: Global, marks: &[bool]) -> Result<Vec<u64>, Memory>
    ensures { IfOk result (λ ranks. AreRanks marks.now ranks.items) }
{
    let mut ranks = Vec::new(alloc);
    let mut rank: u64 = 0;
    ranks.push(rank)?;
    for &mark in marks {
        if mark {
            rank += 1;
        }
        ranks.push(rank)?;
    }
    Ok(ranks)
}

fn push_pac_if(kept: &mut Vec<PacLine>, line: PacLine, is_kept: bool) -> Result<(), Memory>
    ensures { OnOk result (kept.new.items ≡ kept.old.items ++ (if is_kept then line ∷ [] else [])) }
{
    if is_kept {
        kept.push(line)?;
    }
    Ok(())
}

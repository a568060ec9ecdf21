// The clauses that are kept.
ghost use Rattle.std.specs.Prelude.{◌≡◌, length, IfOk};
ghost use Rattle.clause_core.specs.KeptClauses.{AreBelow, AreEarlier};
ghost use Rattle.pair_trim.specs.Marking.{IsKeptOf, MarksNeeded, unmet};

use crate::chosen::{choose_lines, choose_uses, ranks_of};
use crate::marks::{close, set_all};
use crate::roots::mark_roots;
use clause_core::{ClauseList, Line};
use drup_checker::Numbers;
use graph_core::Memory;
use miter_encoder::Goal;
use std::alloc::Global;

/// What is kept of clauses. Numbers count from 1.
#[derive(Debug, Drop)]
pub struct Kept {
    /// each adds a kept clause
    pub lines: Vec<Line>,
    /// for each of these the numbers of the kept ones in its tight chain
    pub uses: Vec<Numbers>,
    /// for each number of a clause, from 0 on, how many up to it are kept: the new number of a kept one
    pub ranks: Vec<u64>,
}

/// Of clauses, and of the numbers that each uses, those that goals need or more numbers name.
pub(crate) fn keep(
    alloc: Global,
    goals: &[Goal],
    more: &[u64],
    clauses: &ClauseList,
    uses: &[Numbers],
) -> Result<Kept, Memory>
    requires long { length uses.now ≡ length clauses.now }
    requires earlier { AreEarlier uses.now }
    requires named { AreBelow (length clauses.now) more.now }
    ensures { IfOk result (λ k. IsKeptOf goals.now more.now clauses.now uses.now
        k.lines.items k.uses.items k.ranks.items) }
{
    let mut marks = Vec::from_elem(alloc, false, clauses.len())?;
    mark(&mut marks, goals, more, clauses, uses);
    let ranks = ranks_of(alloc, &marks)?;
    let uses = choose_uses(alloc, &marks, uses, &ranks)?;
    let lines = choose_lines(alloc, &marks, clauses)?;
    Ok(Kept { lines, uses, ranks })
}

// Marks what goals need, what numbers name, and what those use.
fn mark(marks: &mut [bool], goals: &[Goal], more: &[u64], clauses: &ClauseList, uses: &[Numbers])
    requires long { length marks.old ≡ length clauses.now }
    requires even { length uses.now ≡ length clauses.now }
    requires earlier { AreEarlier uses.now }
    requires named { AreBelow (length clauses.now) more.now }
    ensures { MarksNeeded (unmet goals.now) more.now clauses.now uses.now marks.old marks.new }
{
    mark_roots(marks, goals, clauses);
    set_all(marks, more);
    close(marks, uses);
}

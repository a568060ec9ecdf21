// Goals that are refuted over the clauses near an adder alone.
ghost use Rattle.std.specs.Prelude.{[], ◌≡◌, ◌↔◌, drop, length, IfOk, IfSome, IsTrue, OnOk};
ghost use Rattle.std.specs.List.{All};
ghost use Rattle.clause_core.specs.Likeness.{AreSameSets};
ghost use Rattle.ripple_graft.specs.Blocks.{IsCut, with_cut};
ghost use Rattle.stage_rewriter.specs.NearClauses.{AreNearOf, IsMarkedLiteral, IsNear, IsNearLine, PushesNear};
ghost use Rattle.stage_rewriter.specs.NearKept.{IsKeptNear};
ghost use Rattle.goal_refuter.specs.Refuting.{IsSoFar};
ghost use Rattle.goal_refuter.specs.Refutations.{unmet_goals};

use crate::cone::{near_variables, variables_below};
use crate::goals::unmet_goals;
use cdcl_solver::{Log, Solved, Solver};
use clause_core::{Clause, ClauseList, Line};
use goal_refuter::{refute, solver_of};
use graph_core::Memory;
use miter_encoder::gate_clauses;
use ripple_graft::{Cut, Extended};
use std::alloc::Global;

// How many conflicts a goal may have there: a search that takes more is lost.
const MOST: u64 = 5_000;

/// Refutes the negation of each goal that isn't met over the clauses whose variables are all near the adder, or read at
/// most so deep below its pairs, within so many conflicts; None where that doesn't come off, and whether a search
/// was lost then.
///
/// A log over these clauses is one over all: what is over other variables is within none of its clauses.
pub(crate) fn refute_near(
    alloc: Global,
    extended: &Extended<'_>,
    cut: &Cut,
    depth: u32,
    conflicts: u64,
    is_lost: &mut bool,
) -> Result<Option<Log>, Memory>
    requires cut { IsCut extended.now.graph cut.now }
    requires graph { extended.now ≡ with_cut extended.now.graph cut.now }
    ensures { IfOk result (λ found. IfSome found (IsSoFar extended.now conflicts (length (unmet_goals extended.now)))) }
{
    let max = extended.max();
    let _gates = extended.gates();
    let clauses = gate_clauses(alloc, extended)?;
    let goals = unmet_goals(alloc, extended, cut)?;
    let marks = near_variables(alloc, extended, cut, depth)?;
    let near = Near {
        extended,
        marks: &marks,
        depth,
    };
    let some = near_clauses(alloc, &clauses, near.marks)?;
    let mut solver = solver_of(alloc, max, &some)?;
    near.refute_each(alloc, &mut solver, &goals, conflicts, is_lost)
}

// What lies near an adder.
#[derive(Clone, Copy)]
struct Near<'a> {
    extended: &'a Extended<'a>,
    /// By variable, whether it is near.
    marks: &'a [bool],
    /// Through at most so many gates below the pairs.
    depth: u32,
}

impl Near<'_> {
    // Refutes the negation of each goal, by a solver over the clauses that are near.
    fn refute_each(
        &self,
        alloc: Global,
        solver: &mut Solver,
        goals: &ClauseList,
        conflicts: u64,
        is_lost: &mut bool,
    ) -> Result<Option<Log>, Memory>
        requires goals { AreSameSets goals.now (unmet_goals self.now.extended.now) }
        requires near { IsKeptNear self.now.extended.now self.now.marks.now solver.old
            (record { lines = []; left = [] }) }
        ensures { IfOk result (λ found. IfSome found
            (IsSoFar self.now.extended.now conflicts (length (unmet_goals self.now.extended.now)))) }
    {
        let _gates = self.extended.gates();
        let mut log = Log::new(alloc);
        for goal in 0..goals.len() {
            // the goals so far are among the added clauses beside the lemmas
            let spent = log.added() - goal as u64;
            let left = conflicts - spent;
            let start = log.lines().len();
            let clause = goals.get(goal);
            self.prefer_below(alloc, solver, clause)?;
            match refute(alloc, solver, clause, left.min(MOST), &mut log)? {
                Solved::Refuted => {}
                Solved::Model(_) => return Ok(None),
                Solved::Spent => {
                    *is_lost = true;
                    return Ok(None);
                }
            }
            if !are_near(log.lines(), start, self.marks) {
                return Ok(None);
            }
        }
        Ok(Some(log))
    }

    // Has the variables of a goal and those below decided first, the goal's foremost, where what lies below the pairs
    // counts as near.
    fn prefer_below(&self, alloc: Global, solver: &mut Solver, goal: &Clause) -> Result<(), Memory>
        ensures { solver.new ≡ solver.old }
    {
        if self.depth > 0 {
            let vars = variables_below(alloc, self.extended, goal, self.marks)?;
            solver.prefer(&vars);
        }
        Ok(())
    }
}

// The clauses whose variables are all marked.
fn near_clauses(alloc: Global, clauses: &ClauseList, marks: &[bool]) -> Result<ClauseList, Memory>
    ensures { IfOk result (AreNearOf marks.now clauses.now) }
{
    let mut near = ClauseList::new(alloc);
    for i in 0..clauses.len() {
        push_near(alloc, &mut near, clauses.get(i), marks)?;
    }
    Ok(near)
}

// One clause more, where it is near.
fn push_near(
    alloc: Global,
    near: &mut ClauseList,
    clause: &Clause,
    marks: &[bool],
) -> Result<(), Memory>
    ensures { OnOk result (PushesNear marks.now clause.now near.old near.new) }
{
    if is_near(clause.lits(), marks) {
        near.push(clause.copy(alloc)?)?;
    }
    Ok(())
}

// Whether the lines from one on name marked variables alone.
fn are_near(lines: &[Line], start: usize, marks: &[bool]) -> bool
    ensures { IsTrue result → All (IsNearLine marks.now) (drop start lines.now) }
{
    if lines.len() < start {
        return false;
    }
    all_near(&lines[start..], marks)
}

fn all_near(lines: &[Line], marks: &[bool]) -> bool
    ensures { IsTrue result ↔ All (IsNearLine marks.now) lines.now }
{
    lines.iter().all(|line| is_near_line(line, marks))
}

fn is_near_line(line: &Line, marks: &[bool]) -> bool
    ensures { IsTrue result ↔ IsNearLine marks.now line.now }
{
    match line {
        Line::Add(clause) => is_near(clause.lits(), marks),
        Line::Delete(clause) => is_near(clause.lits(), marks),
    }
}

// Whether the variables of a clause are all marked.
fn is_near(lits: &[i32], marks: &[bool]) -> bool
    ensures { IsTrue result ↔ IsNear marks.now lits.now }
{
    lits.iter().all(|&lit| is_marked(lit, marks))
}

fn is_marked(lit: i32, marks: &[bool]) -> bool
    ensures { IsTrue result ↔ IsMarkedLiteral marks.now lit }
{
    let var = lit.unsigned_abs() as usize;
    var < marks.len() && marks[var]
}

// The clauses that goals need.
ghost use Rattle.std.specs.Prelude.{◌≡◌, length, IfSome, IsNone};
ghost use Rattle.clause_core.specs.KeptClauses.{IsFirstShowing};
ghost use Rattle.pair_trim.specs.Marking.{IsShownIn, MarksFirst, MarksRoots, unmet};

use clause_core::{Clause, ClauseList};
use miter_encoder::Goal;

/// Marks for each goal that isn't met the first clause that shows it.
pub(crate) fn mark_roots(marks: &mut [bool], goals: &[Goal], clauses: &ClauseList)
    requires { length marks.old ≡ length clauses.now }
    ensures { MarksRoots (unmet goals.now) clauses.now marks.old marks.new }
{
    for goal in goals {
        if !goal.met {
            mark_first(marks, &goal.clause, clauses);
        }
    }
}

// Marks the first clause that shows a goal, if one does.
fn mark_first(marks: &mut [bool], goal: &Clause, clauses: &ClauseList)
    requires { length marks.old ≡ length clauses.now }
    ensures { MarksFirst goal.now clauses.now marks.old marks.new }
{
    if let Some(place) = first_showing(goal, clauses) {
        marks[place] = true;
    }
}

fn first_showing(goal: &Clause, clauses: &ClauseList) -> Option<usize>
    ensures some { IfSome result (λ i. IsFirstShowing clauses.now i goal.now) }
    ensures none { IsNone result → ¬ (IsShownIn clauses.now goal.now) }
{
    for place in 0..clauses.len() {
        if clauses.get(place).is_subset(goal) {
            return Some(place);
        }
    }
    None
}

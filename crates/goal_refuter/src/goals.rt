// Goals that no constant has met.
ghost use Rattle.std.specs.Prelude.{◌≡◌, [], IfOk, OnOk};
ghost use Rattle.std.specs.List.{cons_option, flat_map};
ghost use Rattle.clause_core.specs.GateClauses.{clause_of as clause_by};
ghost use Rattle.clause_core.specs.Likeness.{AreSameSets};
ghost use Rattle.miter_encoder.specs.ColumnGoals.{columns_from};
ghost use Rattle.miter_encoder.specs.Encoding.{Appends};
ghost use Rattle.goal_refuter.specs.Refutations.{unmet_of};

use clause_core::ClauseList;
use graph_core::{Lit, Memory};
use miter_encoder::clause_of;
use std::alloc::Global;

/// The goals of pairs of outputs that aren't met, pair by pair.
pub fn pair_goals(alloc: Global, pairs: &[(Lit, Lit)]) -> Result<ClauseList, Memory>
    ensures { IfOk result (λ goals. AreSameSets goals (flat_map unmet_of (columns_from 0 pairs.now))) }
{
    let mut goals = ClauseList::new(alloc);
    for place in 0..pairs.len() {
        let (old, new) = pairs[place];
        push_goals(alloc, &mut goals, old, new)?;
    }
    Ok(goals)
}

/// Appends the goals of a column that aren't met: that the old output implies the new one, and the other way round.
pub fn push_goals(alloc: Global, goals: &mut ClauseList, old: Lit, new: Lit) -> Result<(), Memory>
    ensures { OnOk result (Appends goals.old goals.new
        (unmet_of (record { number = 0; old = old; new = new }))) }
{
    push_goal(alloc, goals, &[old.not(), new])?;
    push_goal(alloc, goals, &[old, new.not()])?;
    Ok(())
}

// the clause of some literals, unless one is the constant true
fn push_goal(alloc: Global, goals: &mut ClauseList, lits: &[Lit]) -> Result<(), Memory>
    ensures { OnOk result (Appends goals.old goals.new (cons_option (clause_by lits.now) [])) }
{
    match clause_of(alloc, lits)? {
        None => Ok(()),
        Some(goal) => goals.push(goal),
    }
}

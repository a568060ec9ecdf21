// The goals of columns.
ghost use Rattle.std.specs.Prelude.{◌≡◌, ◌↔◌, ◌≤◌, ◌^◌, ◌∷◌, [], ◌++◌, length, IfOk, OnOk};
ghost use Rattle.std.specs.List.{All};
ghost use Rattle.graph_core.specs.Graph.Extended.{AgreeOnColumns};
ghost use Rattle.graph_core.specs.Graph.Assignments.{Assignment};
ghost use Rattle.graph_core.specs.Graph.Literals.{negation_of};
ghost use Rattle.clause_core.specs.GateClauses.{clause_of as clause_by};
ghost use Rattle.miter_encoder.specs.ColumnGoals.{AgreeOnPairs, AreGoalsOf, AreGoalsOfColumns, GoalHolds, IsGoalOf, columns_from};
ghost use Rattle.miter_encoder.specs.Pushing.{PushesGoal, PushesGoals};

use crate::clause_of;
use crate::goal::{Goal, Goals};
use clause_core::Clause;
use graph_core::{Lit, Memory};
use ripple_graft::Extended;
use std::alloc::Global;

/// The two goals of each replaced column.
pub fn goals(alloc: Global, extended: &Extended<'_>) -> Result<Goals, Memory>
    ensures sets { IfOk result (AreGoalsOf extended.now) }
    ensures meaning { IfOk result (λ goals. (σ : Assignment) →
        All (GoalHolds σ) goals ↔ AgreeOnColumns extended.now σ) }
{
    let mut goals = Goals::new(alloc);
    let outputs = extended.graph().output_literals();
    let _gates = extended.gates();
    for column in 0..outputs.len() {
        if extended.replaced(column as u32) {
            let new = extended.new_output(column as u32);
            push_column(alloc, &mut goals, column as u32, outputs[column], new)?;
        }
    }
    Ok(goals)
}

/// The two goals of each pair of outputs; pair k is column k.
pub fn goals_of(alloc: Global, pairs: &[(Lit, Lit)]) -> Result<Goals, Memory>
    requires { length pairs.now ≤ 2 ^ 32 }
    ensures sets { IfOk result (AreGoalsOfColumns (columns_from 0 pairs.now)) }
    ensures meaning { IfOk result (λ goals. (σ : Assignment) →
        All (GoalHolds σ) goals ↔ AgreeOnPairs pairs.now σ) }
{
    let mut goals = Goals::new(alloc);
    for column in 0..pairs.len() {
        let (old, new) = pairs[column];
        push_column(alloc, &mut goals, column as u32, old, new)?;
    }
    Ok(goals)
}

// that the old output implies the new one, and the other way round
fn push_column(
    alloc: Global,
    goals: &mut Goals,
    column: u32,
    old: Lit,
    new: Lit,
) -> Result<(), Memory>
    ensures { OnOk result (PushesGoals goals.old goals.new column old new) }
{
    push_goal(alloc, goals, column, &[old.not(), new])?;
    push_goal(alloc, goals, column, &[old, new.not()])?;
    Ok(())
}

fn push_goal(alloc: Global, goals: &mut Goals, column: u32, lits: &[Lit]) -> Result<(), Memory>
    ensures { OnOk result (PushesGoal goals.old goals.new column (clause_by lits.now)) }
{
    match clause_of(alloc, lits)? {
        None => {
            let clause = Clause::new(alloc, &[])?;
            goals.push(Goal {
                column,
                clause,
                met: true,
            })
        }
        Some(clause) => goals.push(Goal {
            column,
            clause,
            met: false,
        }),
    }
}

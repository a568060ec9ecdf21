// The clauses of gates.
ghost use Rattle.std.specs.Prelude.{◌≡◌, ◌↔◌, ◌<◌, ◌^◌, [], ◌++◌, IfOk, OnOk};
ghost use Rattle.std.specs.List.{All, cons_option, filter_map};
ghost use Rattle.graph_core.specs.Graph.{IsEvaluation};
ghost use Rattle.graph_core.specs.Graph.Assignments.{Assignment};
ghost use Rattle.clause_core.specs.Clause.{IsClauseInRange, Satisfies};
ghost use Rattle.clause_core.specs.GateClauses.{clause_of as clause_by, gate_clauses as clauses_by, gate_literals};
ghost use Rattle.clause_core.specs.Likeness.{AreSameSets};
ghost use Rattle.miter_encoder.specs.Encoding.{Appends};

use crate::clause_of;
use clause_core::ClauseList;
use graph_core::{Gate, Lit, Memory};
use ripple_graft::Extended;
use std::alloc::Global;

/// The clauses of all gates of an extended graph. Their variables are those of the graph.
pub fn gate_clauses(alloc: Global, extended: &Extended<'_>) -> Result<ClauseList, Memory>
    ensures sets { IfOk result (λ clauses. AreSameSets clauses (clauses_by extended.now.gates)) }
    ensures meaning { IfOk result (λ clauses. (σ : Assignment) →
        Satisfies σ clauses ↔ IsEvaluation extended.now.gates σ) }
    ensures in_range { IfOk result (λ clauses. All (IsClauseInRange extended.now.max) clauses) }
{
    // no variable is above the greatest one
    let _greatest = extended.max();
    gate_clauses_of(alloc, extended.gates())
}

/// The three clauses of each gate, constants left out.
pub fn gate_clauses_of(alloc: Global, gates: &[Gate]) -> Result<ClauseList, Memory>
    requires { All (λ gate. gate.v < 2 ^ 31) gates.now }
    ensures sets { IfOk result (λ clauses. AreSameSets clauses (clauses_by gates.now)) }
    ensures meaning { IfOk result (λ clauses. (σ : Assignment) →
        Satisfies σ clauses ↔ IsEvaluation gates.now σ) }
{
    let mut clauses = ClauseList::new(alloc);
    for gate in gates {
        push_gate(alloc, &mut clauses, gate)?;
    }
    Ok(clauses)
}

fn push_gate(alloc: Global, clauses: &mut ClauseList, gate: &Gate) -> Result<(), Memory>
    requires { gate.now.v < 2 ^ 31 }
    ensures { OnOk result (Appends clauses.old clauses.new (filter_map clause_by (gate_literals gate.now))) }
{
    let variable = Lit(2 * gate.v);
    let opposite = Lit(2 * gate.v + 1);
    push(alloc, clauses, &[opposite, gate.left])?;
    push(alloc, clauses, &[opposite, gate.right])?;
    push(
        alloc,
        clauses,
        &[variable, gate.left.not(), gate.right.not()],
    )?;
    Ok(())
}

// the clause of some literals, unless one is the constant true
fn push(alloc: Global, clauses: &mut ClauseList, lits: &[Lit]) -> Result<(), Memory>
    ensures { OnOk result (Appends clauses.old clauses.new (cons_option (clause_by lits.now) [])) }
{
    match clause_of(alloc, lits)? {
        None => Ok(()),
        Some(clause) => clauses.push(clause),
    }
}

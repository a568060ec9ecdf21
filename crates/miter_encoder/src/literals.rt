// Literals as signed variables, and the clauses of literals.
ghost use Rattle.std.specs.Prelude.{◌≡◌, ◌<◌, [], ◌∷◌, ◌++◌, IfOk, OnOk};
ghost use Rattle.graph_core.specs.Graph.Literals.{variable_of};
ghost use Rattle.clause_core.specs.GateClauses.{clause_of as clause_by, signed_of};
ghost use Rattle.miter_encoder.specs.Encoding.{IsSameGoal};

use clause_core::{Clause, Literals};
use graph_core::{Lit, Memory};
use std::alloc::Global;

/// The signed variable of a literal that is no constant.
pub fn signed(lit: Lit) -> i32
    requires { 0 < variable_of lit }
    ensures { result ≡ signed_of lit }
{
    let variable = lit.var() as i32;
    if lit.negated() { -variable } else { variable }
}

/// The clause of some literals, without the constant false; None where one is the constant true.
pub fn clause_of(alloc: Global, lits: &[Lit]) -> Result<Option<Clause>, Memory>
    ensures { IfOk result (λ clause. IsSameGoal clause (clause_by lits.now)) }
{
    let mut items = Literals::new(alloc);
    for lit in lits {
        if lit.0 == 1 {
            return Ok(None);
        }
        if lit.0 != 0 {
            push_signed(&mut items, *lit)?;
        }
    }
    Ok(Some(Clause::of(items)))
}

// the signed variable of one literal more at the end
fn push_signed(items: &mut Literals, lit: Lit) -> Result<(), Memory>
    requires { 0 < variable_of lit }
    ensures { OnOk result (items.new.items ≡ items.old.items ++ signed_of lit ∷ []) }
{
    match items.push(signed(lit)) {
        Ok(()) => Ok(()),
        Err(_) => Err(Memory),
    }
}

// Clauses of the literals that are within some variables.
ghost use Rattle.std.specs.Prelude.{◌≢◌, ◌≡◌, ◌<◌, ◌≤◌, ◌^◌, true, pos, nat_abs, IfOk, OnOk};
ghost use Rattle.std.specs.List.{All};
ghost use Rattle.clause_core.specs.Clause.{IsClauseInRange};

use clause_core::{Clause, ClauseList};
use graph_core::Memory;
use std::alloc::Global;

fn is_within(lit: i32, max: u32) -> bool
    ensures { result ≡ true → (lit ≢ pos 0) × (nat_abs lit ≤ max) }
{
    lit != 0 && lit.unsigned_abs() <= max
}

// Keeps a literal that is within the variables.
fn keep(kept: &mut Vec<i32>, lit: i32, max: u32) -> Result<(), Memory>
    requires { IsClauseInRange max kept.old.items }
    ensures { OnOk result (IsClauseInRange max kept.new.items) }
{
    if !is_within(lit, max) {
        return Ok(());
    }
    kept.push(lit)?;
    Ok(())
}

// The clause of the literals that are within the variables.
pub(crate) fn clause_of(alloc: Global, max: u32, lits: &[i32]) -> Result<Clause, Memory>
    requires { max < 2 ^ 31 }
    ensures { IfOk result (IsClauseInRange max) }
{
    let mut kept = Vec::new(alloc);
    for &lit in lits {
        keep(&mut kept, lit, max)?;
    }
    Clause::new(alloc, &kept)
}

pub(crate) fn listed(alloc: Global, max: u32, clauses: &[&[i32]]) -> Result<ClauseList, Memory>
    requires { max < 2 ^ 31 }
    ensures { IfOk result (All (IsClauseInRange max)) }
{
    let mut list = ClauseList::new(alloc);
    for &lits in clauses {
        list.push(clause_of(alloc, max, lits)?)?;
    }
    Ok(list)
}

// What is kept of added clauses.
ghost use Rattle.std.specs.Prelude.{◌≡◌, ◌++◌, ◌∷◌, [], OnErr, OnOk};
ghost use Rattle.drup_checker.specs.Checking.{kept, kept_uses};

use crate::keeps::Keeps;
use crate::numbers::Numbers;
use clause_core::{Clause, ClauseList};
use graph_core::Memory;
use std::alloc::Global;

/// The clauses that a checker added, in their order, also those that were deleted later, and for each the numbers,
/// from 1, of the added ones in a tight chain for it.
#[derive(Debug, Drop)]
pub struct Record {
    pub added: ClauseList,
    pub uses: Vec<Numbers>,
}

/// Puts a clause, and what its chain uses, after those that are kept.
pub(crate) fn keep(
    alloc: Global,
    keeps: Keeps,
    recorded: &mut Record,
    clause: &Clause,
    uses: Vec<u64>,
) -> Result<(), Memory>
    ensures added { OnOk result (recorded.new.added ≡ recorded.old.added ++ kept keeps (clause.now ∷ [])) }
    ensures uses { OnOk result (recorded.new.uses.items ≡ recorded.old.uses.items ++ kept_uses keeps (uses.items ∷ [])) }
    ensures none_added { OnErr result (recorded.new.added ≡ recorded.old.added) }
    ensures none_used { OnErr result (recorded.new.uses.items ≡ recorded.old.uses.items) }
{
    match keeps {
        Keeps::Nothing => Ok(()),
        Keeps::Clauses => recorded.added.push(clause.copy(alloc)?),
        Keeps::Chains => {
            let copy = clause.copy(alloc)?;
            recorded.uses.try_reserve(1)?;
            recorded.added.push(copy)?;
            let _ = recorded.uses.push(Numbers::of(uses));
            Ok(())
        }
    }
}

// `check_same`: the two graphs, and then the clause certificate.
ghost use Rattle.std.specs.Prelude.{IfErr, OnOk};
ghost use Rattle.mv_desk.specs.Calls.{Inspects};
ghost use Rattle.mv_desk.specs.View.{KeepsTelling, OpensFiles};
ghost use Rattle.same_core.specs.Files.{compared_files_of};
ghost use Rattle.same_core.specs.Outcome.{IsExactPairAnswer, IsPairOutcome, OpensForPair};

use crate::checked::SameChecked;
use crate::clauses::check_clauses;
use crate::pairs::read_pair;
use command_core::SameNames;
use mv_desk::{Desk, Limits};
use std::alloc::Global;

/// Judges a clause certificate for two graphs. The files are opened in their order, and only when they are needed; the
/// certificate is read line by line.
pub fn check_same<D: Desk>(
    alloc: Global,
    desk: &mut D,
    limits: &Limits,
    names: &SameNames<&str>,
) -> SameChecked
    ensures outcome { IsPairOutcome limits.now (compared_files_of names.now) (D.seen desk.old) (D.seen desk.new) result }
    ensures exact { IsExactPairAnswer limits.now (compared_files_of names.now) (D.seen desk.old) (D.seen desk.new) result }
    ensures opened { OpensForPair result (D.seen desk.old) (D.seen desk.new) }
    ensures inspects { Inspects (D.seen desk.old) (D.seen desk.new) }
    ensures tells { KeepsTelling (D.seen desk.old) (D.seen desk.new) }
{
    match check_files(alloc, desk, limits, names) {
        Ok(()) => SameChecked::Accepted,
        Err(answer) => answer,
    }
}

// The three files in their order.
fn check_files<D: Desk>(
    alloc: Global,
    desk: &mut D,
    limits: &Limits,
    names: &SameNames<&str>,
) -> Result<(), SameChecked>
    ensures accepted { OnOk result (IsPairOutcome limits.now (compared_files_of names.now)
        (D.seen desk.old) (D.seen desk.new) SameChecked.Accepted) }
    ensures refused { IfErr result (IsPairOutcome limits.now (compared_files_of names.now)
        (D.seen desk.old) (D.seen desk.new)) }
    ensures opened_all { OnOk result (OpensFiles 3 (D.seen desk.old) (D.seen desk.new)) }
    ensures opened { IfErr result (λ answer. OpensForPair answer (D.seen desk.old) (D.seen desk.new)) }
    ensures inspects { Inspects (D.seen desk.old) (D.seen desk.new) }
    ensures tells { KeepsTelling (D.seen desk.old) (D.seen desk.new) }
{
    let pair = read_pair(alloc, desk, limits, names)?;
    check_clauses(alloc, desk, limits, names.clauses, &pair.1)?;
    Ok(())
}

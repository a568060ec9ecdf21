// `trim`: a pair is read and judged, and what is used of it is written.
ghost use Rattle.std.specs.Prelude.{◌≡◌, ◌≢◌, ◌≤◌};
ghost use Rattle.mv_desk.specs.View.{KeepsTelling};
ghost use Rattle.joint_checker.specs.Outcome.{OpensFor};
ghost use Rattle.pair_trim.specs.Trimming.{IsTrimAnswer, checked_of, trimmed_files_of};

use crate::answer::TrimAnswer;
use crate::reading::read_trimmed;
use command_core::{Names, Stop, TrimNames};
use graph_core::Claim;
use joint_checker::Checked;
use mv_desk::{Desk, Limits};
use pair_core::write_pair;
use std::alloc::Global;

/// Judges a pair of certificates for what is claimed of a graph, and writes what is used of it under the new names.
/// Files are created only where the pair is accepted, the clause certificate first; after a write fault a front part
/// of each created file was written.
pub fn trim<D: Desk>(
    alloc: Global,
    desk: &mut D,
    claim: Claim,
    limits: &Limits,
    names: &TrimNames<&str>,
) -> TrimAnswer
    ensures answer { IsTrimAnswer limits.now claim (trimmed_files_of names.now) (D.seen desk.old) (D.seen desk.new) result }
    ensures opened { OpensFor (checked_of result) (D.seen desk.old) (D.seen desk.new) }
    ensures later { (D.seen desk.old).write_faults ≤ (D.seen desk.new).write_faults }
    ensures tells { KeepsTelling (D.seen desk.old) (D.seen desk.new) }
{
    let to = Names {
        graph: names.old.graph,
        clauses: names.to_clauses,
        algebra: names.to_algebra,
    };
    match read_trimmed(alloc, desk, claim, limits, &names.old) {
        Ok(kept) => match write_pair(desk, &kept.pair, &to) {
            Ok(()) => TrimAnswer::Trimmed(kept),
            Err(_) => TrimAnswer::Stopped(Stop::WriteFault),
        },
        Err(checked) => not_accepted(checked),
    }
}

// What is answered where nothing is written.
fn not_accepted(checked: Checked) -> TrimAnswer
    requires { checked ≢ Checked.Accepted }
    ensures { checked_of result ≡ checked }
{
    match checked {
        Checked::Accepted => unreachable!(),
        Checked::Refused(why) => TrimAnswer::Refused(why),
        Checked::Stopped(why) => TrimAnswer::Stopped(why),
    }
}

// `same`: the two graphs, a solver, and the certificate.
ghost use Rattle.std.specs.Prelude.{◌≤◌};
ghost use Rattle.mv_desk.specs.View.{KeepsTelling};
ghost use Rattle.same_core.specs.Deciding.{IsCompared, OpensForCompared};
ghost use Rattle.same_core.specs.Files.{compared_files_of};

use crate::certificate::write_certificate;
use crate::pairs::read_pair;
use crate::solving::{decide, inputs_at};
use crate::verdict::Same;
use command_core::{SameNames, Stop};
use goal_refuter::Outcome;
use mv_desk::{Desk, Limits};
use std::alloc::Global;

/// Says whether two graphs are equal, within so many conflicts of a solver. Where each goal of their merged gates is
/// refuted, the certificate is created and written; else no file is.
pub fn same<D: Desk>(
    alloc: Global,
    desk: &mut D,
    conflicts: u64,
    limits: &Limits,
    names: &SameNames<&str>,
) -> Same
    ensures answer { IsCompared limits.now conflicts (compared_files_of names.now) (D.seen desk.old) (D.seen desk.new) result }
    ensures opened { OpensForCompared result (D.seen desk.old) (D.seen desk.new) }
    ensures later { (D.seen desk.old).write_faults ≤ (D.seen desk.new).write_faults }
    ensures tells { KeepsTelling (D.seen desk.old) (D.seen desk.new) }
{
    let pair = match read_pair(alloc, desk, limits, names) {
        Ok(pair) => pair,
        Err(fail) => return Same::from(fail),
    };
    match decide(alloc, &pair.1, conflicts) {
        Ok(Outcome::Refuted(log)) => match write_certificate(desk, log.lines(), names.clauses) {
            Ok(()) => Same::Equal,
            Err(_) => Same::Stopped(Stop::WriteFault),
        },
        Ok(Outcome::Model(values)) => match inputs_at(alloc, &pair.0, &values) {
            Ok(inputs) => Same::Differs { inputs },
            Err(_) => Same::Stopped(Stop::Memory),
        },
        Ok(Outcome::Spent(goal, log)) => Same::Spent {
            lemmas: conflicts,
            goal,
            log,
        },
        Err(_) => Same::Stopped(Stop::Memory),
    }
}

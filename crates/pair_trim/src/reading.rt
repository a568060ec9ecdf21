// The three files, and what is used of them.
ghost use Rattle.std.specs.Prelude.{◌≢◌, IfErr, IfOk};
ghost use Rattle.graph_core.specs.Graph.Operands.{profile_of};
ghost use Rattle.mv_desk.specs.View.{KeepsTelling};
ghost use Rattle.command_core.specs.Files.{files_of, texts_of};
ghost use Rattle.joint_checker.specs.Outcome.{IsOutcome, OpensFor, OpensNeeded, answer_of};
ghost use Rattle.pair_core.specs.Texts.{CanBeWritten};
ghost use Rattle.pair_trim.specs.Choosing.{HasChosen};
ghost use Rattle.pair_trim.specs.Trimming.{ReadsOld};

use crate::answer::Trimmed;
use crate::choosing::choose;
use command_core::Names;
use graph_core::Claim;
use joint_checker::{Checked, judge_pair};
use mv_desk::{Desk, Limits};
use std::alloc::Global;

/// What is used of an accepted pair; else what `check` says of it. Out of memory comes at any time.
pub(crate) fn read_trimmed<D: Desk>(
    alloc: Global,
    desk: &mut D,
    claim: Claim,
    limits: &Limits,
    names: &Names<&str>,
) -> Result<Trimmed, Checked>
    ensures trims { IfOk result (HasChosen limits.now claim (texts_of (D.seen desk.old) (files_of names.now))) }
    ensures writes { IfOk result (λ t. CanBeWritten t.pair) }
    ensures outcome { IsOutcome limits.now claim (files_of names.now)
        (D.seen desk.old) (D.seen desk.new) (answer_of result) }
    ensures not_accepted { IfErr result (λ answer. answer ≢ Checked.Accepted) }
    ensures opens { OpensNeeded (profile_of claim.widths) limits.now (texts_of (D.seen desk.old) (files_of names.now))
        (D.seen desk.old) (D.seen desk.new) (answer_of result) }
    ensures opened { OpensFor (answer_of result) (D.seen desk.old) (D.seen desk.new) }
    ensures reads { ReadsOld (files_of names.now) (D.seen desk.old) (D.seen desk.new) }
    ensures tells { KeepsTelling (D.seen desk.old) (D.seen desk.new) }
{
    let judged = judge_pair(alloc, desk, claim, limits, names, true)?;
    Ok(choose(alloc, claim, judged)?)
}

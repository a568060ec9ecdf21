// The lines of a file, judged one after the other.
ghost use Rattle.std.specs.Prelude.{◌≡◌, ◌+◌, ◌<◌, ◌^◌, ℕ, Err, Result, true};
ghost use Rattle.mv_desk.specs.Calls.{ReadsOnly};
ghost use Rattle.mv_desk.specs.View.{KeepsTelling, View};
ghost use Rattle.mv_desk.specs.declared.slot.Slot.{Slot};
ghost use Rattle.mv_text.specs.Judging.{LeadsTo};

use mv_desk::Desk;

// A line has at least one byte and its line feed, so that so many have more bytes than a file may have.
const TOO_MANY: u64 = 1 << 63;

/// What judges the lines of a file one after the other, as they are read from a desk. What holds since a start is
/// said of itself and of what the desk told then, and of both now.
pub trait JudgeLines<D: Desk> {
    /// What is known where the lines end.
    type End;

    type Fail;

    /// The slot of the file.
    ghost slot: { Slot };

    /// Since a start so many lines were judged.
    ghost reached: { Self → View → ℕ → Self → View → Type 0 };

    /// Since a start the lines came to this answer.
    ghost judged: { Self → View → Result Self.End Self.Fail → Self → View → Type 0 };

    /// Judges the next line, so many being judged before, or answers where it is the last one.
    fn judge_line(&mut self, desk: &mut D, count: u64) -> Result<Option<Self::End>, Self::Fail>
        requires reads { (D.seen desk.old).reads slot ≡ true }
        requires few { count < 2 ^ 63 }
        requires reached { (start : Self) × (first : View) × reached start first count self.old (D.seen desk.old) }
        ensures leads { (start : Self) (first : View) → ReadsOnly slot first (D.seen desk.old) →
            reached start first count self.old (D.seen desk.old) → LeadsTo
            (reached start first (count + 1) self.new (D.seen desk.new))
            (λ answer. judged start first answer self.new (D.seen desk.new)) result }
        ensures only { ReadsOnly slot (D.seen desk.old) (D.seen desk.new) }
        ensures tells { KeepsTelling (D.seen desk.old) (D.seen desk.new) };

    /// What is answered of more lines than a file may have.
    fn too_many(&self, desk: &D) -> Self::Fail
        requires { (start : Self) × (first : View) × reached start first (2 ^ 63) self.now (D.seen desk.now) }
        ensures { (start : Self) (first : View) → reached start first (2 ^ 63) self.now (D.seen desk.now) →
            judged start first (Err result) self.now (D.seen desk.now) };
}

/// Has the lines judged, up to the first answer.
pub fn judge_lines<D: Desk, J: JudgeLines<D>>(
    desk: &mut D,
    judge: &mut J,
) -> Result<J::End, J::Fail>
    requires reads { (D.seen desk.old).reads J.slot ≡ true }
    requires begins { J.reached judge.old (D.seen desk.old) 0 judge.old (D.seen desk.old) }
    ensures judged { J.judged judge.old (D.seen desk.old) result judge.new (D.seen desk.new) }
    ensures only { ReadsOnly J.slot (D.seen desk.old) (D.seen desk.new) }
    ensures tells { KeepsTelling (D.seen desk.old) (D.seen desk.new) }
{
    for count in 0..TOO_MANY {
        if let Some(end) = judge.judge_line(desk, count)? {
            return Ok(end);
        }
    }
    Err(judge.too_many(desk))
}

// What plans that ended decide, and whether a checker takes the pair that they come to.
ghost use Rattle.std.specs.Prelude.{◌≡◌, true, false, None};
ghost use Rattle.mv_text.specs.LineReading.{lengths_of};
ghost use Rattle.joint_prover.specs.declared.decision.Decision.TheVariants.{Wrong};
ghost use Rattle.joint_prover.specs.Endings.{HasWritable, IsMeasured, IsShort, first_short, is_settled, over_replacement, shorter};

use crate::decision::Decision;
use crate::difference::Difference;
use crate::replacement::Replacement;
use mv_desk::Limits;
use pair_limits::first_too_long;

/// What a plan that ended decides.
#[derive(Drop)]
pub(crate) struct Ended {
    pub(crate) decision: Decision,
    /// What takes the place of outputs in the plan's graph, where that was found by values.
    pub(crate) found: Option<Replacement>,
    /// Whether it has a pair that is past the limits, which no checker takes.
    pub(crate) is_long: bool,
}

impl Ended {
    /// What was decided by a plan that is over nothing that was found.
    pub(crate) fn of(decision: Decision, limits: &Limits) -> Ended
        requires { HasWritable decision }
        ensures decision { result.decision ≡ decision }
        ensures found { result.found ≡ None }
        ensures measured { IsMeasured (lengths_of limits.now) result }
    {
        let is_long = has_long_pair(&decision, limits);
        Ended {
            decision,
            found: None,
            is_long,
        }
    }

    /// That the graph is wrong.
    pub(crate) fn wrong(difference: Difference) -> Ended
        ensures decision { result.decision ≡ Wrong difference }
        ensures found { result.found ≡ None }
        ensures short { result.is_long ≡ false }
    {
        Ended {
            decision: Decision::Wrong(difference),
            found: None,
            is_long: false,
        }
    }

    /// The same over the graph with what was found.
    pub(crate) fn over(self, found: Replacement) -> Ended
        ensures { result ≡ over_replacement found self }
    {
        let Ended {
            decision,
            is_long,
            ..
        } = self;
        Ended {
            decision,
            found: Some(found),
            is_long,
        }
    }
}

/// Whether a decision has a pair that is past the limits.
pub(crate) fn has_long_pair(decision: &Decision, limits: &Limits) -> bool
    requires { HasWritable decision.now }
    ensures short { result ≡ false → IsShort (lengths_of limits.now) decision.now }
    ensures long { result ≡ true → IsShort (lengths_of limits.now) decision.now → ⊥ }
{
    match decision {
        Decision::Proved(pair) => first_too_long(pair, limits).is_some(),
        _ => false,
    }
}

/// Of what plans have decided, one after the other, the first that isn't long, or else the first.
pub(crate) fn first_short(first: Option<Ended>, later: Option<Ended>) -> Option<Ended>
    ensures { result ≡ first_short first later }
{
    match first {
        Some(first) => Some(shorter(first, later)),
        None => later,
    }
}

// The first, unless it is long and the later one isn't.
fn shorter(first: Ended, later: Option<Ended>) -> Ended
    ensures { result ≡ shorter first later }
{
    match later {
        Some(later) => {
            if first.is_long && !later.is_long {
                later
            } else {
                first
            }
        }
        None => first,
    }
}

/// Whether something is decided, and not by a pair that is long.
pub(crate) fn is_settled(ended: &Option<Ended>) -> bool
    ensures { result ≡ is_settled ended.now }
{
    match ended {
        Some(ended) => !ended.is_long,
        None => false,
    }
}

// Laws of verdicts.
ghost use Rattle.joint_prover.specs.Budgets.{EnoughIsProved};
ghost use Rattle.joint_prover.specs.Verdicts.{ProvedPairsAreHeld, VerdictsAreExact};

/// With `Proved` a desk that tells its files holds a graph that multiplies and a lawful pair of certificates for it,
/// where no two names are equal.
pub fn proved_pairs_are_held()
    ensures { ProvedPairsAreHeld }
{}

/// Where no frontier of the plain order is above the budget, the verdict is `Proved` or `Wrong`, whichever is right; a
/// file that spells no graph gets its first refusal. In place of these a fault may come, which was counted, or out of
/// memory.
pub fn verdicts_are_exact()
    ensures { VerdictsAreExact }
{}

/// A made multiplier of n bits with a ripple-carry adder is proved with a budget of 8 n^2 + 64 monomials or more; or in
/// place of that a fault may come, which was counted, or out of memory.
pub fn enough_is_proved()
    ensures { EnoughIsProved }
{}

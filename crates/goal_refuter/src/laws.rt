// A law of refutations.
ghost use Rattle.goal_refuter.specs.Refutations.{RefutedIsLawful};

/// A log that refutes goals one after the other is lawful.
pub fn refuted_is_lawful()
    ensures { RefutedIsLawful }
{}

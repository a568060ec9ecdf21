// Laws of gathered parts and of the lines that state them.
ghost use Rattle.frontier_core.specs.Pending.{PendingAddsColumn, PendingEliminates, PendingStarts, SpareIsLawful};
ghost use Rattle.frontier_core.specs.Totals.{TotalEnds};

/// A group starts with no part.
pub fn pending_starts()
    ensures { PendingStarts }
{}

/// A column adds its axiom times a power of two, where it is replaced.
pub fn pending_adds_column()
    ensures { PendingAddsColumn }
{}

/// A gate adds its axiom times minus a quotient.
pub fn pending_eliminates()
    ensures { PendingEliminates }
{}

/// A combination of spare parts is lawful.
pub fn spare_is_lawful()
    ensures { SpareIsLawful }
{}

/// At last they are the specification minus the rest.
pub fn total_ends()
    ensures { TotalEnds }
{}

// Laws of certificates: what a lawful algebra certificate closes with vanishes, so the graph does what is claimed,
// and a file is lawful or has one first refusal.
ghost use Rattle.algebra_core.specs.AlgebraLines.{AlgebraIsSound, AxiomsVanish, VanishingMeansClaim};
ghost use Rattle.algebra_core.specs.Reading.{AlgebraIsRead, AlgebraLineIsRead, CloseIsRead};
ghost use Rattle.algebra_core.specs.Refusal.{AlgebraIsExact};
ghost use Rattle.algebra_core.specs.Soundness.{VanishingMeetsClaim, VanishingMultiplies};

/// On every evaluation the value that a lawful algebra certificate closes with is 0, so the outputs
/// are what is claimed.
pub fn algebra_is_sound()
    ensures { AlgebraIsSound }
{}

/// The axioms vanish on each evaluation on which the replaced columns agree.
pub fn axioms_vanish()
    ensures { AxiomsVanish }
{}

/// Where the specification vanishes, the outputs are what is claimed.
pub fn vanishing_means_claim()
    ensures { VanishingMeansClaim }
{}

/// Where the specification vanishes on each evaluation of a spelled graph, the graph meets the claim.
pub fn vanishing_meets_claim()
    ensures { VanishingMeetsClaim }
{}

/// Where the specification of two operands vanishes on those of a multiplier's graph, it multiplies.
pub fn vanishing_multiplies()
    ensures { VanishingMultiplies }
{}

/// An algebra certificate is lawful and within the lengths, or there is one first refusal.
pub fn algebra_is_exact()
    ensures { AlgebraIsExact }
{}

/// Reading an algebra certificate gives its lines and its closing id, and nothing else does.
pub fn algebra_is_read()
    ensures { AlgebraIsRead }
{}

/// Reading a line of an algebra certificate gives the line whose text it takes, and nothing else does.
pub fn algebra_line_is_read()
    ensures { AlgebraLineIsRead }
{}

/// Reading a closing line gives its id, and nothing else does.
pub fn close_is_read()
    ensures { CloseIsRead }
{}

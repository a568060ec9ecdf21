// Laws of evaluation: what holds on every evaluation of a graph holds for all values of its inputs.
ghost use Rattle.graph_core.specs.Graph.{EvaluationIsOne};
ghost use Rattle.graph_core.specs.Aiger.Refusal.{OneLevel};
ghost use Rattle.graph_core.specs.Graph.Operands.{ClaimIsDone, ClaimIsProduct, DoingIsAdding, DoingIsMultiplying, EvaluationsSuffice, SidesAreInputs, SidesAreNarrow, SidesReadInputs, WholeProducts};
ghost use Rattle.graph_core.specs.Aiger.Sizes.{SpelledShape};

/// What is claimed on every evaluation of an acyclic graph holds for all values of its inputs.
pub fn evaluations_suffice()
    ensures { EvaluationsSuffice }
{}

/// The operands are read from the inputs, and so is an addend.
pub fn sides_read_inputs()
    ensures { SidesReadInputs }
{}

/// In their order they are the inputs.
pub fn sides_are_inputs()
    ensures { SidesAreInputs }
{}

/// Where neither operand has more than 64 bits, they are operands.
pub fn sides_are_narrow()
    ensures { SidesAreNarrow }
{}

/// A graph meets the claim of two operands exactly where it multiplies.
pub fn claim_is_product()
    ensures { ClaimIsProduct }
{}

/// A graph meets any claim exactly where it does what is claimed on all numbers.
pub fn claim_is_done()
    ensures { ClaimIsDone }
{}

/// Of operands of equal widths that is their product.
pub fn doing_is_multiplying()
    ensures { DoingIsMultiplying }
{}

/// With an addend it is their product plus the addend.
pub fn doing_is_adding()
    ensures { DoingIsAdding }
{}

/// With an output for each bit of the product, a graph that multiplies gives it as a whole number.
pub fn whole_products()
    ensures { WholeProducts }
{}

/// An evaluation that keeps the free variables is the evaluation.
pub fn evaluation_is_one()
    ensures { EvaluationIsOne }
{}

/// Where gates have different variables, a variable has at most one level.
pub fn one_level()
    ensures { OneLevel }
{}

/// A graph that a text spells is of its profile's size.
pub fn spelled_shape()
    ensures { SpelledShape }
{}

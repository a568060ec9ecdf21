// Laws of XOR shapes and of the final stage.
ghost use Rattle.adder_finder.specs.XorShape.{XorShapeIsXor};
ghost use Rattle.adder_finder.specs.FinalStage.{FinalStageIsOne, FitIsCut};

/// A gate of XOR shape is the exclusive or of its sides, and the gates below it are their AND and neither of them.
pub fn xor_shape_is_xor()
    ensures { XorShapeIsXor }
{}

/// A graph has at most one final stage.
pub fn final_stage_is_one()
    ensures { FinalStageIsOne }
{}

/// A fit cut of a graph without faults is a cut of it.
pub fn fit_is_cut()
    ensures { FitIsCut }
{}

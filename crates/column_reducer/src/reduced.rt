// The two ends of a reduction.
use poly_terms::Poly;

/// What a reduction ends with.
#[derive(Debug, Drop)]
pub enum Reduced {
    /// The last frontier's function, and the line that is the specification minus it: 0 where that is 0 and none was
    /// written.
    Rest { poly: Poly, id: u64 },
    /// The first step that leaves a frontier with more monomials than the budget, and how many it has.
    Passed { step: u64, size: u64 },
}

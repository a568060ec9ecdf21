// The numbers that stand where the words give none.

/// The most monomials that a remainder may have.
pub const BUDGET: u64 = 1000000;

/// The most conflicts of the solver.
pub const CONFLICTS: u64 = 100000;

// What a graph is evaluated at.
use graph_core::Claim;

/// Two operands and an addend, each below 2^128.
#[derive(Clone, Copy, Debug)]
pub struct Point {
    /// which inputs are their bits; what is claimed of their value is of no matter
    pub claim: Claim,
    pub a: u128,
    pub b: u128,
    /// 0 without an addend
    pub c: u128,
}

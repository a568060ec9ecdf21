// Which graph is made.
use crate::kind::Kind;

/// Which graph is made, of operands of n bits, or of n and of as many as are said.
#[derive(Clone, Copy, Debug, PartialEq, Eq)]
pub enum Design {
    /// A multiplier of unsigned operands.
    Multiplier(Kind),
    /// A multiplier of unsigned operands, of which the second has so many bits.
    OfWidths(Kind, u32),
    /// The array for signed operands.
    Corrected,
    /// A multiplier of unsigned operands whose product is added to an addend of 2n bits.
    MultiplyAdd(Kind),
}

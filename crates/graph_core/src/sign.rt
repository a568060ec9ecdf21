/// How the n bits of an operand count.
#[derive(Clone, Copy, Debug, PartialEq, Eq)]
pub enum Sign {
    /// Bit i counts 2^i.
    Unsigned,
    /// Bit i counts 2^i, but the highest one -2^(n-1).
    Signed,
}

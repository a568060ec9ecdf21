/// How many inputs and outputs a graph file may have.
#[derive(Clone, Copy, Debug, PartialEq, Eq)]
pub enum Profile {
    /// 2, 4, .. or 128 inputs, and 1 to as many outputs: two operands.
    Multiplier,
    /// 4, 8, .. or 256 inputs, and 1 to half as many outputs: two operands, and an addend of twice their bits.
    MultiplyAdd,
    /// a + b inputs, or with an addend twice as many, and 1 to a + b outputs: operands of a and of b bits, each from 1
    /// to 64, and perhaps an addend of a + b bits.
    Given { a: u32, b: u32, add: bool },
    /// At most `MOST_INPUTS` inputs, and 1 to `MOST_OUTPUTS` outputs.
    Any,
}

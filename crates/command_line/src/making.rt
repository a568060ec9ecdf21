// What is made.
use graph_maker::{Adder, Design};

/// A design of operands of 1 to 64 bits, with the adder at its end.
#[derive(Clone, Copy, Debug)]
pub struct Making {
    pub design: Design,
    /// of the first operand
    pub bits: u32,
    pub adder: Adder,
}

/// Values of a graph's inputs, seen as numbers: two operands, each as its bits count unsigned, and an addend.
#[derive(Clone, Copy, Debug, PartialEq, Eq)]
pub struct Numbers {
    pub a: u64,
    pub b: u64,
    /// 0 without an addend
    pub c: u128,
}

/// A step of a reduction.
#[derive(Clone, Copy, Debug, PartialEq, Eq)]
pub enum Step {
    /// The column of this number, counted from 0, is added.
    Add(u32),
    /// The gate of this variable is eliminated.
    Eliminate(u32),
}

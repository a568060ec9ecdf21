// What takes the place of a graph's outputs.
use ripple_graft::{Beside, Cut};

/// What takes the place of some of a graph's outputs.
#[derive(Debug, Drop)]
pub enum Replacement {
    /// a ripple-carry adder at a cut
    Adder(Cut),
    /// gates beside the graph, and literals of them
    Beside(Beside),
}

/// The same, lent.
#[derive(Clone, Copy)]
pub(crate) enum Lent<'a> {
    Adder(&'a Cut),
    Beside(&'a Beside),
}

// Gates that are swept.
use graph_core::{Gate, Lit};

/// Gates that are swept, and the pairs of outputs that depend on them. Each gate that is no model may be shown equal to
/// one that is.
#[derive(Debug, Drop)]
pub struct Swept<'a> {
    /// The greatest variable.
    pub max: u32,
    pub gates: &'a [Gate],
    /// The level of each gate, in their order.
    pub levels: &'a [u32],
    pub pairs: &'a [(Lit, Lit)],
    pub models: Models,
}

/// Which gates are models, by their variables.
#[derive(Clone, Copy, Debug, PartialEq, Eq)]
pub enum Models {
    UpTo(u32),
    Above(u32),
}

impl Models {
    pub(crate) fn has(&self, gate: &Gate) -> bool {
        match *self {
            Models::UpTo(most) => gate.v <= most,
            Models::Above(least) => least < gate.v,
        }
    }

    /// The variable with the number that another one has after those of the models, where these come first.
    pub(crate) fn of_number(&self, variable: u32) -> Option<u32> {
        match *self {
            Models::UpTo(most) => Some(variable.wrapping_sub(most)),
            Models::Above(_) => None,
        }
    }
}

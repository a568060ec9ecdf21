// What is claimed of a graph.
use crate::order::Order;
use crate::profile::Profile;
use crate::sign::Sign;
use crate::widths::Widths;

/// What is claimed of a graph with m outputs: that they are, modulo 2^m, the product of two operands, or that product
/// plus an addend.
#[derive(Clone, Copy, Debug, PartialEq, Eq)]
pub struct Claim {
    /// Which input is which bit of two operands of equal widths; those of given widths are separate.
    pub order: Order,
    /// How the bits of the two operands count.
    pub sign: Sign,
    /// How many bits the operands have, and whether there is an addend: it has the last inputs, and is unsigned.
    pub widths: Widths,
}

impl Claim {
    ghost use Rattle.std.specs.Prelude.{◌≡◌};
    ghost use Rattle.graph_core.specs.Graph.Operands.{order_of, profile_of};

    /// The profile of the graphs of which it can be claimed.
    pub fn profile(self) -> Profile
        ensures { result ≡ profile_of self.widths }
    {
        match self.widths {
            Widths::Equal { add: false } => Profile::Multiplier,
            Widths::Equal { add: true } => Profile::MultiplyAdd,
            Widths::Given { a, b, add } => Profile::Given { a, b, add },
        }
    }

    /// Which input is which bit of the two operands.
    pub fn input_order(self) -> Order
        ensures { result ≡ order_of self }
    {
        match self.widths {
            Widths::Equal { .. } => self.order,
            Widths::Given { .. } => Order::Separate,
        }
    }
}

// A number modulo a power of two.
ghost use Rattle.std.specs.Prelude.{◌≡◌, ◌<◌, ◌+◌, ◌*◌, ◌%◌, ◌^◌, ◌↔◌, IsTrue};
ghost use Rattle.mv_nums.specs.Residue.{IsWidth};

use std::marker::Model;

/// A number modulo 2^width, with a width from 1 to 128.
#[derive(Clone, Copy, Debug, PartialEq, Eq)]
pub struct Residue {
    width: u32,
    /// below 2^width
    value: u128,
}

impl Model for Residue {
    ghost use Rattle.std.specs.Prelude.{◌<◌, ◌^◌};
    ghost use Rattle.mv_nums.specs.Residue.{ResidueClass, IsWidth};

    ghost Value = { ResidueClass };

    ghost view = { λ r. record { width = r.width; value = r.value } };

    ghost invariant = { λ r. IsWidth r.width × (r.value < 2 ^ r.width) };

    ghost inverse = { λ c. record { width = c.width; value = c.value } };
}

impl Residue {
    /// The residue of a number of any size.
    pub fn new(width: u32, value: u128) -> Residue
        requires { IsWidth width }
        ensures width { result.width ≡ width }
        ensures value { result.value ≡ value % 2 ^ width }
    {
        Residue {
            width,
            value: reduced(width, value),
        }
    }

    #[tactic(auto, using(crate::proofs::Powers::low_of))]
    pub fn add(self, other: Residue) -> Residue
        requires { self.width ≡ other.width }
        ensures width { result.width ≡ self.width }
        ensures value { result.value ≡ (self.value + other.value) % 2 ^ self.width }
    {
        Residue::new(self.width, self.value.wrapping_add(other.value))
    }

    /// The difference: `other` added to it gives `self`.
    #[tactic(auto, using(crate::proofs::Powers::difference))]
    pub fn sub(self, other: Residue) -> Residue
        requires { self.width ≡ other.width }
        ensures width { result.width ≡ self.width }
        ensures value { (result.value + other.value) % 2 ^ self.width ≡ self.value }
    {
        self.add(other.neg())
    }

    /// The opposite: `self` added to it gives 0.
    #[tactic(auto, using(crate::proofs::Powers::opposite))]
    pub fn neg(self) -> Residue
        ensures width { result.width ≡ self.width }
        ensures value { (result.value + self.value) % 2 ^ self.width ≡ 0 }
    {
        Residue::new(self.width, self.value.wrapping_neg())
    }

    #[tactic(auto, using(crate::proofs::Powers::low_of))]
    pub fn mul(self, other: Residue) -> Residue
        requires { self.width ≡ other.width }
        ensures width { result.width ≡ self.width }
        ensures value { result.value ≡ (self.value * other.value) % 2 ^ self.width }
    {
        Residue::new(self.width, self.value.wrapping_mul(other.value))
    }

    /// The residue times 2^bits, for any number of bits.
    #[tactic(auto, using(crate::proofs::Powers::low_of, crate::proofs::Powers::shifted_out))]
    pub fn shift(self, bits: u32) -> Residue
        ensures width { result.width ≡ self.width }
        ensures value { result.value ≡ (self.value * 2 ^ bits) % 2 ^ self.width }
    {
        if bits < 128 {
            Residue::new(self.width, self.value << bits)
        } else {
            Residue::new(self.width, 0)
        }
    }

    pub fn is_zero(self) -> bool
        ensures { IsTrue result ↔ (self.value ≡ 0) }
    {
        self.value == 0
    }

    /// The number that stands for the residue, below 2^width.
    pub fn value(self) -> u128
        ensures value { result ≡ self.value }
        ensures below { result < 2 ^ self.width }
    {
        self.value
    }
}

// What is left of a number modulo 2^width.
#[tactic(auto, using(crate::proofs::Powers::masked))]
fn reduced(width: u32, value: u128) -> u128
    requires { IsWidth width }
    ensures { result ≡ value % 2 ^ width }
{
    if width == 128 {
        value
    } else {
        value & ((1 << width) - 1)
    }
}

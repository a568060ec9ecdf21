// The coefficients of numbers that stand one behind the other.
ghost use Rattle.std.specs.Prelude.{◌≡◌, ◌<◌, IfOk, OnErr, OnOk, get_or, replicate, set};

use std::alloc::{AllocError, Global};
use std::marker::Model;

/// So many numbers share a block.
pub(crate) const SIZE: usize = 64;

/// The coefficients of a block's numbers. It takes no memory before one isn't 0.
#[derive(Debug, Drop)]
pub(crate) struct Block {
    coefficients: Vec<u128>,
}

impl Model for Block {
    ghost use Rattle.std.specs.Prelude.{List, ℕ};
    ghost use Rattle.poly_terms.specs.Blocks.{IsBlock, filled};

    ghost Value = { List ℕ };

    ghost view = { λ b. filled b.coefficients.items };

    ghost invariant = { λ b. IsBlock b.coefficients.items };
}

impl Block {
    /// Each coefficient is 0.
    pub(crate) fn new(alloc: Global) -> Block
        ensures { result ≡ replicate 64 0 }
    {
        Block {
            coefficients: Vec::new(alloc),
        }
    }

    /// The coefficient at a place.
    #[inline(always)]
    pub(crate) fn at(&self, place: usize) -> u128
        ensures { result ≡ get_or self.now place 0 }
    {
        match self.coefficients.get(place) {
            Some(coefficient) => *coefficient,
            None => 0,
        }
    }

    /// Puts a coefficient at a place.
    #[inline(always)]
    pub(crate) fn put(
        &mut self,
        alloc: Global,
        place: usize,
        coefficient: u128,
    ) -> Result<(), AllocError>
        requires { place < 64 }
        ensures put { OnOk result (self.new ≡ set self.old place coefficient) }
        ensures kept { OnErr result (self.new ≡ self.old) }
    {
        if self.coefficients.is_empty() {
            self.coefficients = zeros(alloc)?;
        }
        self.coefficients[place] = coefficient;
        Ok(())
    }

    /// Puts 0 at a place.
    #[inline(always)]
    pub(crate) fn clear(&mut self, place: usize)
        requires { place < 64 }
        ensures { self.new ≡ set self.old place 0 }
    {
        if self.coefficients.is_empty() {
            return;
        }
        self.coefficients[place] = 0;
    }
}

#[inline(never)]
fn zeros(alloc: Global) -> Result<Vec<u128>, AllocError>
    ensures { IfOk result (λ r. r.items ≡ replicate 64 0) }
{
    vec![in alloc; 0; SIZE]
}

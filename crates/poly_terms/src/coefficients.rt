// Coefficients by the numbers of monomials.
ghost use Rattle.std.specs.Prelude.{◌≡◌, ◌<◌, [], OnErr, OnOk, get_or, length, set};
ghost use Rattle.poly_terms.specs.Blocks.{AreBlocks, joined};
ghost use Rattle.poly_terms.specs.Indexed.{IsLonger};

use crate::block::{Block, SIZE};
use std::alloc::{AllocError, Global};
use std::marker::Model;

/// The coefficients of a polynomial, by number. A number past the end has 0. Numbers far from any with another
/// coefficient than 0 take no memory.
#[derive(Debug, Drop)]
pub(crate) struct Coefficients {
    alloc: Global,
    blocks: Vec<Block>,
}

impl Model for Coefficients {
    ghost use Rattle.std.specs.Prelude.{List, ℕ};
    ghost use Rattle.poly_terms.specs.Blocks.{AreBlocks, joined};

    ghost Value = { List ℕ };

    ghost view = { λ c. joined c.blocks.items };

    ghost invariant = { λ c. AreBlocks c.blocks.items };
}

impl Coefficients {
    pub(crate) fn new(alloc: Global) -> Coefficients
        ensures { result ≡ [] }
    {
        Coefficients {
            alloc,
            blocks: Vec::new(alloc),
        }
    }

    /// How many numbers are within.
    pub(crate) fn len(&self) -> usize
        ensures { result ≡ length self.now }
    {
        self.blocks.len() * SIZE
    }

    /// Has a number within, by as many 0 as it takes.
    #[inline(always)]
    pub(crate) fn reach(&mut self, number: u64) -> Result<(), AllocError>
        ensures longer { IsLonger self.old self.new }
        ensures long { OnOk result (number < length self.new) }
    {
        let last = number as usize / SIZE;
        if last < self.blocks.len() {
            return Ok(());
        }
        lengthen(self.alloc, &mut self.blocks, last)
    }

    /// Puts a coefficient in place of a number's.
    #[inline(always)]
    pub(crate) fn put(&mut self, number: u64, coefficient: u128) -> Result<(), AllocError>
        requires { number < length self.old }
        ensures put { OnOk result (self.new ≡ set self.old number coefficient) }
        ensures kept { OnErr result (self.new ≡ self.old) }
    {
        let place = number as usize % SIZE;
        self.blocks[number as usize / SIZE].put(self.alloc, place, coefficient)
    }

    /// Puts 0 in place of a number's.
    #[inline(always)]
    pub(crate) fn clear(&mut self, number: u64)
        requires { number < length self.old }
        ensures { self.new ≡ set self.old number 0 }
    {
        self.blocks[number as usize / SIZE].clear(number as usize % SIZE);
    }

    /// The coefficient of a number.
    #[inline(always)]
    pub(crate) fn at(&self, number: u64) -> u128
        ensures { result ≡ get_or self.now number 0 }
    {
        match self.blocks.get(number as usize / SIZE) {
            Some(block) => block.at(number as usize % SIZE),
            None => 0,
        }
    }
}

// Blocks of 0 up to the last one. There are no more than have words as their numbers.
#[inline(never)]
fn lengthen(alloc: Global, blocks: &mut Vec<Block>, last: usize) -> Result<(), AllocError>
    requires { AreBlocks blocks.old.items }
    ensures blocks { AreBlocks blocks.new.items }
    ensures longer { IsLonger (joined blocks.old.items) (joined blocks.new.items) }
    ensures long { OnOk result (last < length blocks.new.items) }
{
    if last >= usize::MAX / SIZE {
        return Err(AllocError);
    }
    for _ in blocks.len()..=last {
        blocks.push(Block::new(alloc))?;
    }
    Ok(())
}

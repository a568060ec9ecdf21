// Merges of a column's bits, each of a word.
use crate::merge::{Merge, Step};
use crate::pool::Pool;
use crate::words::Word;
use graph_core::Memory;
use std::alloc::Global;

/// An addend, or a sum, of a column by its number, and the place of its word.
#[derive(Clone, Copy, Debug)]
pub(crate) struct Bit {
    pub(crate) number: u32,
    pub(crate) place: u32,
}

/// Merges of a column.
#[derive(Drop)]
pub(crate) struct Joining<'a, 'b> {
    alloc: Global,
    pool: &'a mut Pool<'b>,
    pub(crate) steps: Vec<Step>,
}

impl<'a, 'b> Joining<'a, 'b> {
    /// None.
    pub(crate) fn new(alloc: Global, pool: &'a mut Pool<'b>) -> Joining<'a, 'b> {
        Joining {
            alloc,
            pool,
            steps: Vec::new(alloc),
        }
    }

    /// Merges bits up to one, whose number it is.
    pub(crate) fn join(&mut self, bits: &[Bit], carries: Word) -> Result<Option<u32>, Memory> {
        let mut left = Vec::new(self.alloc);
        for bit in bits {
            left.push(bit.number)?;
        }
        for _merge in 0..bits.len() {
            let merge = match left.as_slice() {
                [x, y] => Merge::half(*x, *y),
                [x, y, z, ..] => Merge::full(*x, *y, *z),
                _ => break,
            };
            let sum = self.pool.sum(&merge)?;
            left.retain(|member| !merge.takes(*member));
            left.push(sum)?;
            self.steps.push(Step {
                merge,
                sum,
                word: carries,
            })?;
        }
        Ok(left.first().copied())
    }
}

/// Appends the addends of a layer.
pub(crate) fn push_bits(bits: &mut Vec<Bit>, words: &[Word], layer: u32) -> Result<(), Memory> {
    for (number, word) in words.iter().enumerate() {
        if word.layer == layer {
            bits.push(Bit {
                number: (number % (1 << 32)) as u32,
                place: word.place,
            })?;
        }
    }
    Ok(())
}

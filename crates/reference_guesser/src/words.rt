// Words that are put together three by three, as Yosys does it: each row of products is one.
use crate::joining::{Bit, Joining, push_bits};
use crate::merge::Step;
use crate::pool::Pool;
use crate::products::Form;
use graph_core::Memory;
use std::alloc::Global;

// More layers than any number of words needs.
const LAYERS: u32 = 32;

/// The word that an addend is of: in each layer three neighbours become their sum and, behind it, the carries.
#[derive(Clone, Copy, Debug)]
pub(crate) struct Word {
    pub(crate) layer: u32,
    pub(crate) place: u32,
}

/// The words of a multiplier's products.
#[derive(Clone, Copy, Debug)]
pub(crate) struct Rows {
    pub(crate) form: Form,
    /// the bits of both operands
    pub(crate) a: u32,
    pub(crate) b: u32,
}

impl Rows {
    /// How many words there are.
    pub(crate) fn count(&self) -> u32 {
        match self.form {
            Form::Simple => self.a.min(self.b),
            Form::Extended | Form::Complemented => self.b.saturating_add(1),
            Form::Booth => self.b / 2 + 1,
        }
    }

    /// That of the product with a number in a column.
    pub(crate) fn word(&self, column: u32, number: u32) -> Word {
        let highest = self.b.saturating_sub(1);
        let place = match self.form {
            // by rising bits of a
            Form::Simple if self.a < self.b => {
                number.saturating_add(column.saturating_sub(highest))
            }
            // by falling bits of b
            Form::Simple => column.min(highest).saturating_sub(number),
            // the highest bit of b itself comes last there, and is in the first word
            Form::Extended if column == highest && number == self.b => 0,
            Form::Extended if column == highest => number.saturating_add(1),
            // below the highest bit of b its row has the last product, but in the first column, where the word 1 is behind it
            Form::Complemented if column < highest && column < number => {
                highest.saturating_add(number.saturating_sub(column.saturating_add(1)))
            }
            Form::Extended | Form::Complemented | Form::Booth => number,
        };
        Word { layer: 0, place }
    }

    /// That of what is no product.
    pub(crate) fn other(&self) -> Word {
        Word {
            layer: 0,
            place: self.count(),
        }
    }
}

impl Word {
    /// The first one.
    pub(crate) fn first() -> Word {
        Word { layer: 0, place: 0 }
    }
}

/// The merges of a column's addends, each of a word, of which there are so many, and where carries go.
pub(crate) fn word_steps(
    alloc: Global,
    pool: &mut Pool<'_>,
    words: &[Word],
    count: u32,
) -> Result<Vec<Step>, Memory> {
    let mut joining = Joining::new(alloc, pool);
    let mut count = count;
    let mut bits = Vec::new(alloc);
    for layer in 0..LAYERS {
        push_bits(&mut bits, words, layer)?;
        if count <= 2 {
            // the adder of two words, whose carry goes to the same place of the next column
            joining.join(&bits, Word { layer, place: 2 })?;
            break;
        }
        bits = next_layer(alloc, &mut joining, &bits, layer, count / 3)?;
        count = count / 3 * 2 + count % 3;
    }
    Ok(joining.steps)
}

// A layer's bits by those of the layer before, of which so many groups of three words are joined.
fn next_layer(
    alloc: Global,
    joining: &mut Joining<'_, '_>,
    bits: &[Bit],
    layer: u32,
    groups: u32,
) -> Result<Vec<Bit>, Memory> {
    let layer = layer.saturating_add(1);
    let mut next = Vec::new(alloc);
    for group in 0..groups {
        let place = group.saturating_mul(2);
        let carries = Word {
            layer,
            place: place.saturating_add(1),
        };
        let members = group_of(alloc, bits, group)?;
        if let Some(number) = joining.join(&members, carries)? {
            next.push(Bit { number, place })?;
        }
    }
    for bit in bits {
        if groups <= bit.place / 3 {
            next.push(Bit {
                number: bit.number,
                place: bit.place.saturating_sub(groups),
            })?;
        }
    }
    Ok(next)
}

// The bits of a group of three words.
fn group_of(alloc: Global, bits: &[Bit], group: u32) -> Result<Vec<Bit>, Memory> {
    let mut members = Vec::new(alloc);
    for bit in bits {
        if bit.place / 3 == group {
            members.push(*bit)?;
        }
    }
    Ok(members)
}

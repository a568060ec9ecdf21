// Words that are put together two by two or one after the other, each time by an adder: each row of products is one.
use crate::joining::{Bit, Joining, push_bits};
use crate::merge::Step;
use crate::pool::Pool;
use crate::words::Word;
use graph_core::Memory;
use std::alloc::Global;

// More layers than any number of words needs.
const LAYERS: u32 = 32;

/// The merges of a column's addends, each of a word, of which there are so many: in each layer two neighbours become
/// their sum, and the carries of each pair go to the same pair of the next column.
pub(crate) fn pair_steps(
    alloc: Global,
    pool: &mut Pool<'_>,
    words: &[Word],
    count: u32,
) -> Result<Vec<Step>, Memory> {
    let mut joining = Joining::new(alloc, pool);
    let mut count = count;
    let mut bits = Vec::new(alloc);
    for layer in 0..LAYERS {
        if count <= 1 {
            break;
        }
        push_bits(&mut bits, words, layer)?;
        bits = next_layer(alloc, &mut joining, &bits, layer, count)?;
        count = count / 2 + count % 2;
    }
    Ok(joining.steps)
}

// A layer's bits by those of the layer before, of which there are so many. Carries have the places behind these.
fn next_layer(
    alloc: Global,
    joining: &mut Joining<'_, '_>,
    bits: &[Bit],
    layer: u32,
    count: u32,
) -> Result<Vec<Bit>, Memory> {
    let mut next = Vec::new(alloc);
    for pair in 0..count / 2 + count % 2 {
        let carries = Word {
            layer,
            place: count.saturating_add(pair),
        };
        let mut members = Vec::new(alloc);
        for bit in bits {
            let is_word = bit.place < count && bit.place / 2 == pair;
            if is_word || bit.place == carries.place {
                members.push(*bit)?;
            }
        }
        if let Some(number) = joining.join(&members, carries)? {
            next.push(Bit {
                number,
                place: pair,
            })?;
        }
    }
    Ok(next)
}

/// The same, where each word is added to the sum of those before.
pub(crate) fn turn_steps(
    alloc: Global,
    pool: &mut Pool<'_>,
    words: &[Word],
    count: u32,
) -> Result<Vec<Step>, Memory> {
    let mut joining = Joining::new(alloc, pool);
    let mut rows = Vec::new(alloc);
    push_bits(&mut rows, words, 0)?;
    let mut sum = Vec::new(alloc);
    push_place(&mut sum, &rows, 0)?;
    for place in 1..count {
        let carries = Word {
            layer: place,
            place: 0,
        };
        push_place(&mut sum, &rows, place)?;
        push_bits(&mut sum, words, carries.layer)?;
        let number = joining.join(&sum, carries)?;
        sum.clear();
        if let Some(number) = number {
            sum.push(Bit { number, place: 0 })?;
        }
    }
    Ok(joining.steps)
}

// Appends the bits at a place.
fn push_place(bits: &mut Vec<Bit>, rows: &[Bit], place: u32) -> Result<(), Memory> {
    for bit in rows {
        if bit.place == place {
            bits.push(*bit)?;
        }
    }
    Ok(())
}

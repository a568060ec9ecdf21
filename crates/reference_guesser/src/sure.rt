// Full adders of which the sum and the carry are known.
use crate::merge::{Merge, Step};
use crate::pool::Pool;
use crate::words::Word;
use graph_core::Memory;
use std::alloc::Global;

// No search is needed for so few addends.
const FEW: usize = 3;

// Of no more full adders one is chosen.
const MOST: usize = 1 << 14;

/// Merges of a column's addends by such full adders, the lowest first, until few addends or no such adder is left.
/// What is left are the addends.
pub(crate) fn sure_adders(
    alloc: Global,
    pool: &mut Pool<'_>,
    addends: &mut Vec<u32>,
) -> Result<Vec<Step>, Memory> {
    let mut path = Vec::new(alloc);
    let mut found = Vec::new(alloc);
    let mut looked = 0;
    for _merge in 0..addends.len() {
        if addends.len() <= FEW {
            break;
        }
        find(pool, addends, looked, &mut found)?;
        let Some(lowest) = take_lowest(&mut found) else {
            break;
        };
        found.retain(|adder| !adder.1.meets(&lowest));
        addends.retain(|addend| !lowest.takes(*addend));
        looked = addends.len();
        let sum = pool.sum(&lowest)?;
        addends.push(sum)?;
        path.push(Step {
            merge: lowest,
            sum,
            word: Word::first(),
        })?;
    }
    Ok(path)
}

// Full adders with an addend from a place on, each with its levels.
fn find(
    pool: &Pool<'_>,
    addends: &[u32],
    looked: usize,
    found: &mut Vec<((u32, u32), Merge)>,
) -> Result<(), Memory> {
    for (place, z) in addends.iter().enumerate() {
        if place >= looked {
            for (second, y) in addends.iter().enumerate().take(place) {
                for x in addends.iter().take(second) {
                    if found.len() < MOST && is_sure(pool, *x, *y, *z) {
                        let merge = Merge::full(*x, *y, *z);
                        found.push((pool.levels(&merge), merge))?;
                    }
                }
            }
        }
    }
    Ok(())
}

// Whether the sum and the carry of a full adder are known.
fn is_sure(pool: &Pool<'_>, x: u32, y: u32, z: u32) -> bool {
    pool.has_sum(x, y, z) && pool.has_carry(x, y, z)
}

// The lowest one.
fn take_lowest(found: &mut Vec<((u32, u32), Merge)>) -> Option<Merge> {
    let mut lowest: Option<((u32, u32), Merge)> = None;
    for adder in found.iter() {
        lowest = match lowest {
            Some(least) if least <= *adder => Some(least),
            _ => Some(*adder),
        };
    }
    let (_, merge) = lowest?;
    Some(merge)
}

// Merges that no signal tells.
use crate::merge::Merge;
use crate::pool::Pool;
use crate::style::Shape;
use graph_core::Memory;
use std::alloc::Global;

/// A column's addends by their numbers: its products come first, then the carries into it.
#[derive(Clone, Copy, Debug)]
pub(crate) struct Extent {
    pub(crate) products: u32,
    pub(crate) addends: u32,
    /// whether each row of products begins in a column below or here
    pub(crate) is_low: bool,
}

/// The merge of three members with the least levels, the later first.
pub(crate) fn lowest(
    alloc: Global,
    pool: &Pool<'_>,
    members: &[u32],
) -> Result<Option<Merge>, Memory> {
    let mut order = Vec::new(alloc);
    for (place, member) in members.iter().enumerate() {
        order.push((
            pool.level(*member),
            members.len().wrapping_sub(place),
            *member,
        ))?;
    }
    order.sort_unstable();
    match order.as_slice() {
        [x, y, z, ..] => Ok(Some(Merge::full(x.2, y.2, z.2))),
        _ => Ok(None),
    }
}

/// The next merge of an array: of the last sum, the next product and the first carry.
pub(crate) fn next_of_array(
    alloc: Global,
    members: &[u32],
    sum: Option<u32>,
    extent: &Extent,
    shape: Shape,
) -> Result<Option<Merge>, Memory> {
    let products = products_among(alloc, members, extent, shape)?;
    let carries = carries_among(alloc, members, extent)?;
    let mut chosen = Vec::new(alloc);
    if let Some(sum) = sum {
        chosen.push(sum)?;
    }
    if chosen.is_empty() && extent.is_low {
        take(&mut chosen, &products, 2)?;
    } else {
        let most = if carries.is_empty() { 3 } else { 2 };
        take(&mut chosen, &products, most)?;
        take(&mut chosen, &carries, 3)?;
    }
    Ok(Merge::of(&chosen))
}

// Takes members from a list, until so many are chosen.
fn take(chosen: &mut Vec<u32>, from: &[u32], most: usize) -> Result<(), Memory> {
    for member in from {
        if chosen.len() < most {
            chosen.push(*member)?;
        }
    }
    Ok(())
}

// The products that are left, in the order in which an array takes them.
fn products_among(
    alloc: Global,
    members: &[u32],
    extent: &Extent,
    shape: Shape,
) -> Result<Vec<u32>, Memory> {
    let mut products = Vec::new(alloc);
    for member in members {
        if *member < extent.products {
            products.push(*member)?;
        }
    }
    products.sort_unstable();
    if shape == Shape::Rows {
        products.reverse();
    }
    Ok(products)
}

// The carries that are left.
fn carries_among(alloc: Global, members: &[u32], extent: &Extent) -> Result<Vec<u32>, Memory> {
    let mut carries = Vec::new(alloc);
    for member in members {
        if extent.products <= *member && *member < extent.addends {
            carries.push(*member)?;
        }
    }
    carries.sort_unstable();
    Ok(carries)
}

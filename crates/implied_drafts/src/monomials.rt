// Products of variables, as rising lists.
use graph_core::Memory;
use smallvec::SmallVec;
use std::alloc::Global;

/// Nearly all are short, and take no memory of their own.
pub(crate) type Monomial = SmallVec<u32, 4>;

/// The product of variables in any order, each of which stands there once.
pub(crate) fn monomial_of(alloc: Global, variables: &[u32]) -> Result<Monomial, Memory> {
    let mut monomial = SmallVec::from_slice(alloc, variables)?;
    monomial.as_mut_slice().sort_unstable();
    Ok(monomial)
}

/// The variables without one of them.
pub(crate) fn without(alloc: Global, variables: &[u32], v: u32) -> Result<Vec<u32>, Memory> {
    let mut rest = Vec::with_capacity(alloc, variables.len())?;
    for u in variables {
        if *u != v {
            rest.push(*u)?;
        }
    }
    Ok(rest)
}

/// The product of variables and some more, which may be among them.
pub(crate) fn joined(alloc: Global, variables: &[u32], more: &[u32]) -> Result<Monomial, Memory> {
    let mut all = SmallVec::with_capacity(alloc, variables.len().saturating_add(more.len()))?;
    all.extend_from_slice(variables)?;
    for v in more {
        if !all.as_slice().contains(v) {
            all.push(*v)?;
        }
    }
    all.as_mut_slice().sort_unstable();
    Ok(all)
}

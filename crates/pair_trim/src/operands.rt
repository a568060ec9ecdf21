// Which lines of an algebra certificate a line is made of.
ghost use Rattle.std.specs.Prelude.{◌≡◌, ◌≢◌, ◌<◌, ◌++◌, ◌∷◌, [], ℕ, List, length, map, slice_index, IfOk, MatchOption, OnOk};
ghost use Rattle.poly_text.specs.Recorded.{AreRisingIds, id_in, ids_in, operands_in};
ghost use Rattle.pair_trim.specs.Lines.{AreAllUses, AreUsesOf};

use drup_checker::Numbers;
use graph_core::Memory;
use poly_text::PacLine;
use std::alloc::Global;

/// The ids of lines, in their order.
pub(crate) fn ids_of(alloc: Global, lines: &[PacLine]) -> Result<Vec<u64>, Memory>
    ensures { IfOk result (λ ids. ids.items ≡ ids_in lines.now) }
{
    let mut ids = Vec::new(alloc);
    for line in lines {
        ids.push(id_of(line))?;
    }
    Ok(ids)
}

/// For each line the numbers, from 1, of those that it is made of.
pub(crate) fn all_uses(
    alloc: Global,
    ids: &[u64],
    lines: &[PacLine],
) -> Result<Vec<Numbers>, Memory>
    requires { AreRisingIds ids.now }
    ensures { IfOk result (λ uses. AreAllUses ids.now (map operands_in lines.now) uses.items) }
{
    let mut uses = Vec::new(alloc);
    for line in lines {
        uses.push(uses_of(alloc, ids, line)?)?;
    }
    Ok(uses)
}

/// The place of an id, if it is there.
pub(crate) fn place_in(ids: &[u64], id: u64) -> Option<usize>
    requires { AreRisingIds ids.now }
    ensures { MatchOption result ((p : ℕ) → p < length ids.now → slice_index ids.now p ≢ id)
        (λ p. (p < length ids.now) × (slice_index ids.now p ≡ id)) }
{
    match ids.binary_search(&id) {
        Ok(place) => Some(place),
        Err(_) => None,
    }
}

fn id_of(line: &PacLine) -> u64
    ensures { result ≡ id_in line.now }
{
    match line {
        PacLine::Sum { id, .. } => *id,
        PacLine::Product { id, .. } => *id,
        PacLine::Combination { id, .. } => *id,
        PacLine::Import { id, .. } => *id,
        PacLine::Drop { .. } => 0,
        PacLine::Close { .. } => 0,
    }
}

fn uses_of(alloc: Global, ids: &[u64], line: &PacLine) -> Result<Numbers, Memory>
    requires { AreRisingIds ids.now }
    ensures { IfOk result (AreUsesOf ids.now (operands_in line.now)) }
{
    match line {
        PacLine::Sum { i, j, .. } => uses_among(alloc, ids, &[*i, *j]),
        PacLine::Product { i, .. } => uses_among(alloc, ids, &[*i]),
        PacLine::Combination { parts, .. } => {
            let operands = first_of(alloc, parts.as_slice())?;
            uses_among(alloc, ids, &operands)
        }
        PacLine::Import { .. } => uses_among(alloc, ids, &[]),
        PacLine::Drop { .. } => uses_among(alloc, ids, &[]),
        PacLine::Close { .. } => uses_among(alloc, ids, &[]),
    }
}

fn first_of<T>(alloc: Global, parts: &[(u64, T)]) -> Result<Vec<u64>, Memory>
    ensures { IfOk result (λ ids. ids.items ≡ map (λ part. part.0) parts.now) }
{
    let mut ids = Vec::new(alloc);
    for part in parts {
        ids.push(part.0)?;
    }
    Ok(ids)
}

// The numbers of the ids that are among some.
fn uses_among(alloc: Global, ids: &[u64], operands: &[u64]) -> Result<Numbers, Memory>
    requires { AreRisingIds ids.now }
    ensures { IfOk result (AreUsesOf ids.now operands.now) }
{
    let mut uses = Vec::new(alloc);
    for &operand in operands {
        if let Some(place) = place_in(ids, operand) {
            uses.push(place as u64 + 1)?;
        }
    }
    Ok(Numbers::of(uses))
}

// Sums of sorted lists of terms, and of terms in any order.
ghost use Rattle.std.specs.Prelude.{◌≡◌, ◌++◌, ◌^◌, ◌<◌, [], IfOk, IsTrue, OnOk, length};
ghost use Rattle.mv_nums.specs.Residue.{IsWidth};
ghost use Rattle.poly_terms.specs.Entries.{IsOrderly, IsPlaced, IsPutBehind, IsSortedSum, add_entries, plus};

use crate::coefficient;
use crate::term::Term;
use mv_nums::Residue;
use std::alloc::{AllocError, Global};
use std::cmp::Ordering;

/// The sum of two sorted lists, by one merge.
pub(crate) fn add_sorted(
    alloc: Global,
    exponent: u32,
    left: &[Term],
    right: &[Term],
) -> Result<Vec<Term>, AllocError>
    requires { IsWidth exponent }
    ensures { IfOk result (λ out. out.items ≡ plus (2 ^ exponent) left.now right.now) }
{
    let mut out = Vec::new(alloc);
    let mut i: usize = 0;
    let mut j: usize = 0;
    while i < left.len() && j < right.len() {
        let x = &left[i];
        let y = &right[j];
        match x.compare(y) {
            Ordering::Less => {
                out.push(x.copy())?;
                i += 1;
            }
            Ordering::Greater => {
                out.push(y.copy())?;
                j += 1;
            }
            Ordering::Equal => {
                push_sum(exponent, x, y, &mut out)?;
                i += 1;
                j += 1;
            }
        }
    }
    copy_behind(&left[i..], &mut out)?;
    copy_behind(&right[j..], &mut out)?;
    Ok(out)
}

/// The sum of entries in any order: sorted, and those of one monomial added up.
pub(crate) fn gather(alloc: Global, exponent: u32, raw: Vec<Term>) -> Result<Vec<Term>, AllocError>
    requires { IsWidth exponent }
    ensures { IfOk result (λ out. IsSortedSum (2 ^ exponent) raw.items out.items) }
{
    if is_orderly(exponent, &raw) {
        return Ok(raw);
    }
    let mut sorted = raw;
    sorted.sort_unstable_by(|x, y| x.compare(y));
    if is_orderly(exponent, &sorted) {
        return Ok(sorted);
    }
    let mut out = Vec::with_capacity(alloc, sorted.len())?;
    for entry in sorted {
        put_behind(exponent, entry, &mut out)?;
    }
    out.shrink_to_fit();
    Ok(out)
}

fn push_sum(exponent: u32, x: &Term, y: &Term, out: &mut Vec<Term>) -> Result<(), AllocError>
    requires { IsWidth exponent }
    ensures { OnOk result
        (out.new.items ≡ out.old.items ++ add_entries (2 ^ exponent) x.now y.now []) }
{
    let sum = coefficient::sum(exponent, x.coefficient(), y.coefficient());
    if sum != 0 {
        out.push(x.with_coefficient(sum))?;
    }
    Ok(())
}

// Copies entries after others.
fn copy_behind(entries: &[Term], out: &mut Vec<Term>) -> Result<(), AllocError>
    ensures { OnOk result (out.new.items ≡ out.old.items ++ entries.now) }
{
    out.reserve(entries.len())?;
    for entry in entries {
        out.push(entry.copy())?;
    }
    Ok(())
}

// Whether entries are a sorted list as they stand. Most are, as they come or once they are sorted.
fn is_orderly(exponent: u32, entries: &[Term]) -> bool
    requires { IsWidth exponent }
    ensures { IsTrue result → IsOrderly (2 ^ exponent) entries.now }
{
    let mut i = entries.len();
    while i > 0 {
        i -= 1;
        if !is_placed(exponent, entries, i) {
            return false;
        }
    }
    true
}

#[inline(always)]
fn is_placed(exponent: u32, entries: &[Term], i: usize) -> bool
    requires exponent { IsWidth exponent }
    requires in_range { i < length entries.now }
    ensures { IsTrue result → IsPlaced (2 ^ exponent) entries.now i }
{
    let number = entries[i].number();
    if i + 1 < entries.len() && entries[i + 1].number() <= number {
        return false;
    }
    let coefficient = entries[i].coefficient();
    coefficient != 0 && Residue::new(exponent, coefficient).value() == coefficient
}

// Puts an entry after others: added to the last where that has its monomial, and not at all where the sum is 0.
#[inline(always)]
fn put_behind(exponent: u32, entry: Term, out: &mut Vec<Term>) -> Result<(), AllocError>
    requires { IsWidth exponent }
    ensures { OnOk result (IsPutBehind (2 ^ exponent) entry out.old.items out.new.items) }
{
    let coefficient = match out.pop_if(|last| last.is_like(&entry)) {
        Some(last) => coefficient::sum(exponent, last.coefficient(), entry.coefficient()),
        None => Residue::new(exponent, entry.coefficient()).value(),
    };
    if coefficient != 0 {
        out.push(entry.with_coefficient(coefficient))?;
    }
    Ok(())
}

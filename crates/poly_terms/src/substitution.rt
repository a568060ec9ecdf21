// A variable replaced by a polynomial. The terms without it stay sorted, so that only the others are gathered.
ghost use Rattle.std.specs.Prelude.{◌≡◌, ◌<◌, ◌^◌, ◌↔◌, None, Some, [], IfOk, OnOk, IsTrue, length, slice_get};
ghost use Rattle.mv_nums.specs.Residue.{IsWidth};
ghost use Rattle.poly_terms.specs.Entries.{entry_order};
ghost use Rattle.poly_terms.specs.Merges.{AreAfter};
ghost use Rattle.poly_terms.specs.Monomials.{Adds, AreIn, Grows, free_of, places_of, replaced, replaced_one, total_in};

use crate::numbering::Numbering;
use crate::term::Term;
use crate::{monomial, multiplication};
use std::alloc::{AllocError, Global};

/// The numbers of the terms with a variable.
pub(crate) fn places_of(
    alloc: Global,
    table: &Numbering,
    entries: &[Term],
    v: u32,
) -> Result<Vec<u64>, AllocError>
    requires { AreIn table.now entries.now }
    ensures { IfOk result (λ places. places.items ≡ places_of table.now v entries.now) }
{
    let mut places = Vec::new(alloc);
    for entry in entries {
        if monomial::has_variable(table.variables(entry.number()), v) {
            places.push(entry.number())?;
        }
    }
    Ok(places)
}

/// The terms without the variable: those at no place.
pub(crate) fn entries_free_of(
    alloc: Global,
    table: &Numbering,
    entries: &[Term],
    v: u32,
    places: &[u64],
) -> Result<Vec<Term>, AllocError>
    requires order { AreAfter entry_order None entries.now }
    requires places { places.now ≡ places_of table.now v entries.now }
    ensures { IfOk result (λ out. out.items ≡ free_of table.now v entries.now) }
{
    let mut out = Vec::new(alloc);
    let mut j: usize = 0;
    for entry in entries {
        if is_place(places, j, entry) {
            j += 1;
        } else {
            out.push(entry.copy())?;
        }
    }
    Ok(out)
}

/// What becomes of the terms with the variable, in any order.
pub(crate) fn replacements(
    alloc: Global,
    table: &mut Numbering,
    exponent: u32,
    entries: &[Term],
    v: u32,
    by: &[Term],
    places: &[u64],
) -> Result<Vec<Term>, AllocError>
    requires exponent { IsWidth exponent }
    requires order { AreAfter entry_order None entries.now }
    requires entries { AreIn table.old entries.now }
    requires by { AreIn table.old by.now }
    requires places { places.now ≡ places_of table.old v entries.now }
    ensures grows { Grows table.old table.new }
    ensures adds { IfOk result (λ out. Adds (2 ^ exponent) table.old table.new [] out.items
        (λ σ. replaced table.old v σ (total_in table.old σ by.now) entries.now)) }
{
    let mut out = Vec::new(alloc);
    let mut j: usize = 0;
    for entry in entries {
        if is_place(places, j, entry) {
            replace_behind(table, exponent, entry, v, by, &mut out)?;
            j += 1;
        }
    }
    Ok(out)
}

/// Whether a term's number is the one at a place of the list.
pub(crate) fn is_place(places: &[u64], j: usize, entry: &Term) -> bool
    ensures { IsTrue result ↔ (slice_get places.now j ≡ Some entry.now.0) }
{
    match places.get(j) {
        Some(number) => *number == entry.number(),
        None => false,
    }
}

// The same for one term, after others.
fn replace_behind(
    table: &mut Numbering,
    exponent: u32,
    entry: &Term,
    v: u32,
    by: &[Term],
    out: &mut Vec<Term>,
) -> Result<(), AllocError>
    requires exponent { IsWidth exponent }
    requires entry { entry.now.0 < length table.old }
    requires by { AreIn table.old by.now }
    ensures grows { Grows table.old table.new }
    ensures adds { OnOk result (Adds (2 ^ exponent) table.old table.new out.old.items out.new.items
        (λ σ. replaced_one table.old v σ (total_in table.old σ by.now) entry.now)) }
{
    let rest = table.without(entry.number(), v)?;
    multiplication::multiply_behind(
        table,
        exponent,
        rest.as_slice(),
        entry.coefficient(),
        by,
        out,
    )
}

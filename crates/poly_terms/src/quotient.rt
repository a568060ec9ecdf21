// What stands beside a variable: the terms that have it, each without it.
ghost use Rattle.std.specs.Prelude.{◌≡◌, ◌<◌, ℕ, None, [], IfOk, OnOk, length};
ghost use Rattle.poly_terms.specs.Entries.{entry_order};
ghost use Rattle.poly_terms.specs.Merges.{AreAfter};
ghost use Rattle.poly_terms.specs.Monomials.{Adds, AreIn, Grows, places_of, replaced, replaced_one};

use crate::numbering::Numbering;
use crate::term::Term;
use crate::{multiplication, substitution};
use std::alloc::{AllocError, Global};

/// The terms with the variable, without it, in any order.
pub(crate) fn quotients(
    alloc: Global,
    table: &mut Numbering,
    entries: &[Term],
    v: u32,
    places: &[u64],
) -> Result<Vec<Term>, AllocError>
    requires order { AreAfter entry_order None entries.now }
    requires entries { AreIn table.old entries.now }
    requires places { places.now ≡ places_of table.old v entries.now }
    ensures grows { Grows table.old table.new }
    ensures adds { IfOk result (λ out. (m : ℕ) → Adds m table.old table.new [] out.items
        (λ σ. replaced table.old v σ 1 entries.now)) }
{
    let mut out = Vec::with_capacity(alloc, places.len())?;
    let mut j: usize = 0;
    for entry in entries {
        if substitution::is_place(places, j, entry) {
            divide_behind(table, entry, v, &mut out)?;
            j += 1;
        }
    }
    Ok(out)
}

// One term without the variable, after others.
fn divide_behind(
    table: &mut Numbering,
    entry: &Term,
    v: u32,
    out: &mut Vec<Term>,
) -> Result<(), AllocError>
    requires entry { entry.now.0 < length table.old }
    ensures grows { Grows table.old table.new }
    ensures adds { OnOk result ((m : ℕ) → Adds m table.old table.new out.old.items out.new.items
        (λ σ. replaced_one table.old v σ 1 entry.now)) }
{
    let rest = table.without(entry.number(), v)?;
    multiplication::push_term(table, rest, entry.coefficient(), out)
}

// Columns that are replaced, as they are kept.
ghost use Rattle.std.specs.Prelude.{◌≡◌, ◌↔◌, ◌+◌, ◌++◌, ◌<◌, ◌≤◌, ◌⊎◌, IfOk, IsTrue, drop, length};
ghost use Rattle.std.specs.List.{All, Any};
ghost use Rattle.graph_core.specs.declared.bounds.TheConstants.{MOST_OUTPUTS};
ghost use Rattle.ripple_graft.specs.Blocks.{columns, reach};
ghost use Rattle.ripple_graft.specs.Extension.{new_or_old};
ghost use Rattle.ripple_graft.specs.Grafts.{columns_in};

use crate::added::Replaced;
use graph_core::Lit;
use std::alloc::AllocError;

// How many columns so many pairs replace, with the last carry's or without.
pub fn reach(pairs: usize, carry: bool) -> usize
    requires { pairs ≤ MOST_OUTPUTS }
    ensures { result ≡ reach pairs carry }
{
    if carry { pairs + 1 } else { pairs }
}

// Whether column k is among them.
pub fn is_among(columns: &[Replaced], k: u32) -> bool
    ensures { IsTrue result ↔ Any (λ c. c.number ≡ k) columns.now }
{
    columns.iter().any(|column| column.number == k)
}

// The new output of column k where it is among them, else the old one.
pub fn new_or_old(columns: &[Replaced], k: u32, old: Lit) -> Lit
    ensures { result ≡ new_or_old (columns_in columns.now) k old }
{
    for column in columns {
        if column.number == k {
            return column.new;
        }
    }
    old
}

// Whether each is below or above these columns.
pub fn are_apart(columns: &[Replaced], lo: usize, end: usize) -> bool
    ensures { IsTrue result ↔ All (λ c. (c.number < lo) ⊎ (end ≤ c.number)) columns.now }
{
    columns
        .iter()
        .all(|column| is_outside(column.number, lo, end))
}

// Columns from the given one on, with their outputs of the graph and new ones, after other columns.
pub fn columns_behind(
    before: Vec<Replaced>,
    lo: u32,
    old: &[Lit],
    new: &[Lit],
) -> Result<Vec<Replaced>, AllocError>
    requires within { lo + length new.now ≤ length old.now }
    requires few { length old.now ≤ MOST_OUTPUTS }
    ensures { IfOk result (λ all. columns_in all.items ≡
        columns_in before.items ++ columns lo (drop lo old.now) new.now) }
{
    let mut number = lo;
    let mut all = before;
    for output in new {
        all.push(Replaced {
            number,
            old: old[number as usize],
            new: *output,
        })?;
        number += 1;
    }
    Ok(all)
}

fn is_outside(number: u32, lo: usize, end: usize) -> bool
    ensures { IsTrue result ↔ ((number < lo) ⊎ (end ≤ number)) }
{
    (number as usize) < lo || end <= number as usize
}

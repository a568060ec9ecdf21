// Propagation through the clauses near a few literals.
ghost use Rattle.std.specs.Prelude.{◌≡◌, ◌⊎◌, ◌↔◌, neg_ℤ, IfOk, IfSome, IsTrue, MatchOption, Some};
ghost use Rattle.std.specs.List.{All, Contains};
ghost use Rattle.clause_core.specs.Clause.{IsClause, IsLiteral as IsClauseLiteral};
ghost use Rattle.unit_prop.specs.Standing.{clause_at, live_of};
ghost use Rattle.unit_prop.specs.Near.{FindsNear};

use crate::kept::Kept;
use crate::watches::{NONE, Watches};
use graph_core::Memory;

// How often the literals are gone through: each time this many more of them, and at this many clauses of each.
const PASSES: usize = 3;

const MORE: usize = 8;

const FEW: u32 = 12;

/// Goes through the first literals, and looks at the first clauses that watch the negation of each. Each literal that
/// one of these leads to, if its variable is one of those given, is appended, up to a clause that is false; whether
/// there is one. A clause that leads to none
/// may do so once more literals are there, so they are gone through again.
pub(crate) fn visit_near(
    clauses: &[Kept],
    watches: &Watches,
    vars: &[u32],
    lits: &mut Vec<i32>,
) -> Result<bool, Memory>
    ensures { IfOk result (FindsNear (live_of clauses.now) lits.old.items lits.new.items) }
{
    for pass in 0..PASSES {
        if visit_each(clauses, watches, vars, MORE * (pass + 1), lits)? {
            return Ok(true);
        }
    }
    Ok(false)
}

// The same for so many literals, once.
fn visit_each(
    clauses: &[Kept],
    watches: &Watches,
    vars: &[u32],
    most: usize,
    lits: &mut Vec<i32>,
) -> Result<bool, Memory>
    ensures { IfOk result (FindsNear (live_of clauses.now) lits.old.items lits.new.items) }
{
    for place in 0..most {
        let Some(lit) = lits.get(place).copied() else {
            return Ok(false);
        };
        if visit_watching(clauses, watches, vars, lit.wrapping_neg(), lits)? {
            return Ok(true);
        }
    }
    Ok(false)
}

// The same for the clauses that watch one literal.
fn visit_watching(
    clauses: &[Kept],
    watches: &Watches,
    vars: &[u32],
    lit: i32,
    lits: &mut Vec<i32>,
) -> Result<bool, Memory>
    ensures { IfOk result (FindsNear (live_of clauses.now) lits.old.items lits.new.items) }
{
    let mut node = watches.first(lit);
    for _step in 0..FEW {
        if node == NONE {
            return Ok(false);
        }
        if look_at(clauses, vars, node / 2, lits)? {
            return Ok(true);
        }
        node = watches.after(node);
    }
    Ok(false)
}

// The same for one clause.
fn look_at(
    clauses: &[Kept],
    vars: &[u32],
    reference: u32,
    lits: &mut Vec<i32>,
) -> Result<bool, Memory>
    ensures { IfOk result (FindsNear (live_of clauses.now) lits.old.items lits.new.items) }
{
    let Some(own) = clause_of(clauses, reference) else {
        return Ok(false);
    };
    let Some(first) = other_open(lits, own, 0) else {
        return Ok(true);
    };
    if let None = other_open(lits, own, first) {
        if is_new(lits, vars, first) {
            lits.push(first)?;
        }
    }
    Ok(false)
}

// Whether a literal isn't there, and its variable is one of these.
fn is_new(lits: &[i32], vars: &[u32], lit: i32) -> bool {
    !has(lits, lit) && vars.contains(&lit.unsigned_abs())
}

// The literals of the clause of a reference, if it is live.
fn clause_of(clauses: &[Kept], reference: u32) -> Option<&[i32]>
    ensures value { IfSome result (λ c. clause_at clauses.now reference ≡ Some c.now) }
    ensures clause { IfSome result (λ c. IsClause c.now) }
{
    if (reference as usize) < clauses.len() {
        return clauses[reference as usize].lits();
    }
    None
}

// A literal of the clause, other than this one, whose negation isn't there.
fn other_open(lits: &[i32], own: &[i32], other: i32) -> Option<i32>
    requires { All IsClauseLiteral own.now }
    ensures { MatchOption result
        (All (λ l. (l ≡ other) ⊎ Contains lits.now (neg_ℤ l)) own.now)
        (λ l. Contains own.now l) }
{
    for &lit in own {
        if lit != other && !is_false(lits, lit) {
            return Some(lit);
        }
    }
    None
}

// Whether the negation of a literal is there.
fn is_false(lits: &[i32], lit: i32) -> bool
    requires { IsClauseLiteral lit }
    ensures { IsTrue result ↔ Contains lits.now (neg_ℤ lit) }
{
    has(lits, -lit)
}

fn has(lits: &[i32], lit: i32) -> bool
    ensures { IsTrue result ↔ Contains lits.now lit }
{
    lits.contains(&lit)
}

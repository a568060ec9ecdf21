// Chains by which the place of a clause is found.
ghost use Rattle.std.specs.Prelude.{◌≡◌, ◌≢◌, ◌+◌, ◌%◌, ◌<◌, ◌≤◌, ℕ, length, slice_index, IfSome, IsNone};
ghost use Rattle.drup_checker.specs.Chains.{AreFalling, Leads, clause_hash, mix};
ghost use Rattle.unit_prop.specs.Standing.{HasSetAt};

use clause_core::Clause;
use unit_prop::{Propagator, Ref};

// Below 2^32, and prime.
const NUMBERS: u64 = 4294967291;

/// The chain of a clause among so many.
pub(crate) fn chain_of(clause: &Clause, chains: usize) -> usize
    requires { 0 < chains }
    ensures value { result ≡ clause_hash clause.now % chains }
    ensures bound { result < chains }
{
    let mut number = 0;
    for &lit in clause.lits() {
        number = mixed(number, lit);
    }
    (number % chains as u64) as usize
}

/// The live clause with the set that a chain leads to, if there is one. A place is given as its successor, and 0 is the
/// end.
pub(crate) fn find(head: u32, next: &[u32], propagator: &Propagator, clause: &Clause) -> Option<Ref>
    requires falls { AreFalling next.now }
    requires first { head ≤ length next.now }
    ensures some { IfSome result (λ r. (r < length next.now) × HasSetAt propagator.now.clauses clause.now r) }
    ensures none { IsNone result → (r : ℕ) → HasSetAt propagator.now.clauses clause.now r → ¬ (Leads next.now head r) }
{
    let mut from = head;
    while from > 0 {
        let place = from - 1;
        let found = propagator.find_at(place, clause);
        if found.is_some() {
            return found;
        }
        from = next[place as usize];
    }
    None
}

/// Takes a place out of a chain.
pub(crate) fn unlink(heads: &mut [u32], next: &mut [u32], chain: usize, place: u32)
    requires falls { AreFalling next.old }
    requires first { slice_index heads.old chain ≤ length next.old }
    requires chain { chain < length heads.old }
    requires place { place < length next.old }
    requires few { length next.old ≤ 2147483648 }
    ensures heads { length heads.new ≡ length heads.old }
    ensures places { length next.new ≡ length next.old }
    ensures first { (i : ℕ) → slice_index heads.old i ≤ length next.old → slice_index heads.new i ≤ length next.new }
    ensures falls { AreFalling next.new }
    ensures others { (i r : ℕ) → r ≢ place → Leads next.old (slice_index heads.old i) r →
        Leads next.new (slice_index heads.new i) r }
{
    let behind = next[place as usize];
    let head = heads[chain];
    if head == place + 1 {
        heads[chain] = behind;
        return;
    }
    if let Some(before) = before(head, next, place) {
        next[before as usize] = behind;
    }
}

// A number and a literal make a number.
fn mixed(number: u64, lit: i32) -> u64
    requires { number < 4294967291 }
    ensures value { result ≡ mix number lit }
    ensures bound { result < 4294967291 }
{
    let code = 2 * u64::from(lit.unsigned_abs()) + u64::from(lit < 0);
    (number * 1000003 + code) % NUMBERS
}

// The place of a chain that leads to this one.
fn before(head: u32, next: &[u32], place: u32) -> Option<u32>
    requires falls { AreFalling next.now }
    requires first { head ≤ length next.now }
    requires place { place < length next.now }
    requires few { length next.now ≤ 2147483648 }
    ensures { IfSome result (λ p. (p < length next.now) × (slice_index next.now p ≡ place + 1)) }
{
    let mut from = head;
    while from > 0 {
        let here = from - 1;
        from = next[here as usize];
        if from == place + 1 {
            return Some(here);
        }
    }
    None
}

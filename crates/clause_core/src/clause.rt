// A clause as it is kept: its literals rise. Nearly all are short, and stay inline.
ghost use Rattle.std.specs.Prelude.{◌≡◌, ◌↔◌, ◌<◌, ◌≤◌, ◌<ℤ◌, ◌≤ℤ◌, ℕ, length, pos, slice_index_or, IfOk, IsTrue};
ghost use Rattle.std.specs.List.{All, Contains};
ghost use Rattle.clause_core.specs.Clause.{IsClause, IsLiteral, IsRising, IsSubset, SameSet};

use graph_core::Memory;
use mv_fact::Fact;
use smallvec::SmallVec;
use std::alloc::Global;
use std::marker::Model;

/// Literals in any order. Four of them take no memory.
pub type Literals = SmallVec<i32, 4>;

/// A set of signed variables, each from 1 to 2^31 - 1.
#[derive(Debug, Drop)]
pub struct Clause {
    items: Literals,
}

impl Model for Clause {
    ghost use Rattle.std.specs.Prelude.{List, ℤ};
    ghost use Rattle.clause_core.specs.Clause.{IsClause};

    ghost Value = { List ℤ };

    ghost view = { λ c. c.items.items };

    ghost invariant = { λ c. IsClause c.items.items };
}

/// The fact that one of its literals is true.
impl Fact for Clause {
    ghost use Rattle.std.specs.Prelude.{◌≡◌, true, ⊤};
    ghost use Rattle.clause_core.specs.Clause.{holds as holds_at};

    type Table = ();

    ghost belongs = { λ c t. ⊤ };

    ghost holds = { λ c t σ. holds_at σ c ≡ true };

    ghost extends = { λ new old. ⊤ };

    ghost stays = { λ c new old e h. h };

    ghost keeps = { λ c new old σ e b h. h };

    ghost same = { λ t. tt };

    ghost joins = { λ a b c g h. tt };
}

impl Clause {
    /// The clause of some literals, in any order, of which some may be repeated.
    pub fn new(alloc: Global, lits: &[i32]) -> Result<Clause, Memory>
        requires { All IsLiteral lits.now }
        ensures { IfOk result (λ clause. SameSet clause lits.now) }
    {
        let items = SmallVec::from_slice(alloc, lits)?;
        Ok(Clause::of(items))
    }

    /// The clause of a list of literals, which it keeps.
    pub fn of(items: Literals) -> Clause
        requires { All IsLiteral items.items }
        ensures { SameSet result items.items }
    {
        let mut items = items;
        if !is_rising(items.as_slice()) {
            put_in_order(&mut items);
        }
        Clause { items }
    }

    /// The same clause once more.
    pub fn copy(&self, alloc: Global) -> Result<Clause, Memory>
        ensures { IfOk result (λ clause. clause ≡ self.now) }
    {
        let items = SmallVec::from_slice(alloc, self.items.as_slice())?;
        Ok(Clause { items })
    }

    pub fn has(&self, lit: i32) -> bool
        ensures { IsTrue result ↔ Contains self.now lit }
    {
        contains(self.items.as_slice(), lit)
    }

    /// Whether each literal is one of the other clause.
    pub fn is_subset(&self, of: &Clause) -> bool
        ensures { IsTrue result ↔ IsSubset self.now of.now }
    {
        let others = of.items.as_slice();
        let mut next = 0;
        for &lit in self.items.as_slice() {
            next = skip_below(others, next, lit);
            if next == others.len() || others[next] != lit {
                return false;
            }
        }
        true
    }

    /// Its literals, each once, rising.
    pub fn lits(&self) -> &[i32]
        ensures value { result.now ≡ self.now }
        ensures clause { IsClause self.now }
    {
        self.items.as_slice()
    }
}

fn contains(lits: &[i32], lit: i32) -> bool
    ensures { IsTrue result ↔ Contains lits.now lit }
{
    lits.contains(&lit)
}

// whether each literal is less than the next
fn is_rising(lits: &[i32]) -> bool
    ensures { IsTrue result → IsRising lits.now }
{
    for i in 1..lits.len() {
        if lits[i] <= lits[i - 1] {
            return false;
        }
    }
    true
}

// sorts them, and leaves each once
fn put_in_order(lits: &mut Literals)
    ensures rising { IsRising lits.new.items }
    ensures same { SameSet lits.new.items lits.old.items }
{
    lits.as_mut_slice().sort_unstable();
    lits.dedup();
}

// the first place from this one on whose literal isn't below
fn skip_below(lits: &[i32], from: usize, lit: i32) -> usize
    requires { from ≤ length lits.now }
    ensures bound { (from ≤ result) × (result ≤ length lits.now) }
    ensures below { (i : ℕ) → from ≤ i → i < result → slice_index_or lits.now i (pos 0) <ℤ lit }
    ensures here { result < length lits.now → lit ≤ℤ slice_index_or lits.now result (pos 0) }
{
    let mut at = from;
    while at < lits.len() && lits[at] < lit {
        at += 1;
    }
    at
}

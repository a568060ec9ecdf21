// Monomials by number, which are found by chains of those that are hashed alike.
ghost use Rattle.std.specs.Prelude.{◌≡◌, ◌<◌, ◌≤◌, ◌++◌, ◌∷◌, [], IfNone, IfOk, IfSome, OnErr, OnOk, get_or, length};
ghost use Rattle.poly_terms.specs.Chains.{AreLinked, Hangs, IsAbsent, IsChained, chain_of};
ghost use Rattle.poly_terms.specs.Monomials.{Stands};

use crate::key::{are_same, folded};
use crate::lists::Lists;
use crate::numbers::Numbers;
use std::alloc::{AllocError, Global};
use std::marker::Model;

// As many chains as there are at first.
const FEW: usize = 16;

/// Monomials by number, in any order; some may stand there twice.
#[derive(Drop)]
pub(crate) struct Chains {
    alloc: Global,
    monomials: Lists,
    /// by chain: one more than its last number, or 0
    heads: Numbers,
    /// by number: one more than the number before it in its chain, or 0
    links: Numbers,
}

impl Model for Chains {
    ghost use Rattle.std.specs.Prelude.{List, ℕ};
    ghost use Rattle.poly_terms.specs.Chains.{IsChained};

    ghost Value = { List (List ℕ) };

    ghost view = { λ c. c.monomials };

    ghost invariant = { λ c. IsChained c.monomials c.heads c.links };
}

impl Chains {
    pub(crate) fn new(alloc: Global) -> Chains
        ensures { result ≡ [] }
    {
        Chains {
            alloc,
            monomials: Lists::new(alloc),
            heads: Numbers::new(alloc),
            links: Numbers::new(alloc),
        }
    }

    /// No monomial yet, with room for so many.
    pub(crate) fn with_capacity(alloc: Global, count: usize) -> Result<Chains, AllocError>
        ensures { IfOk result (λ c. c ≡ []) }
    {
        let chains = count.checked_next_power_of_two().ok_or(AllocError)?;
        Ok(Chains {
            alloc,
            monomials: Lists::with_capacity(alloc, count)?,
            heads: Numbers::zeros(alloc, chains)?,
            links: Numbers::with_capacity(alloc, count)?,
        })
    }

    /// How many monomials there are.
    pub(crate) fn len(&self) -> u64
        ensures { result ≡ length self.now }
    {
        self.monomials.len() as u64
    }

    /// The variables of a number.
    #[inline(always)]
    pub(crate) fn variables(&self, number: u64) -> &[u32]
        requires { number < length self.now }
        ensures { get_or self.now number [] ≡ result.now }
    {
        self.monomials.at(number as usize)
    }

    /// The number of a monomial, if it has one.
    #[inline(always)]
    pub(crate) fn find(&self, monomial: &[u32]) -> Option<u64>
        ensures some { IfSome result (λ n. Stands self.now n monomial.now) }
        ensures none { IfNone result (IsAbsent self.now monomial.now) }
    {
        if self.heads.len() == 0 {
            return None;
        }
        find_in(&self.monomials, &self.heads, &self.links, monomial)
    }

    /// Adds a monomial, and gives its number.
    #[inline(never)]
    pub(crate) fn add(&mut self, monomial: &[u32]) -> Result<u64, AllocError>
        ensures added { OnOk result (self.new ≡ self.old ++ monomial.now ∷ []) }
        ensures number { IfOk result (λ n. n ≡ length self.old) }
        ensures unchanged { OnErr result (self.new ≡ self.old) }
    {
        let number = self.monomials.len();
        make_wide(
            self.alloc,
            &self.monomials,
            &mut self.heads,
            &mut self.links,
        )?;
        self.monomials.push(monomial)?;
        match hang(monomial, &mut self.heads, &mut self.links) {
            Ok(()) => Ok(number as u64),
            Err(fail) => {
                self.monomials.truncate(number);
                Err(fail)
            }
        }
    }
}

// The number of a monomial that is linked, if it has one.
#[inline(always)]
fn find_in(monomials: &Lists, heads: &Numbers, links: &Numbers, monomial: &[u32]) -> Option<u64>
    requires some { 0 < length heads.now }
    requires long { length links.now ≡ length monomials.now }
    requires linked { AreLinked (length heads.now) monomials.now heads.now links.now }
    ensures some { IfSome result (λ n. Stands monomials.now n monomial.now) }
    ensures none { IfNone result (IsAbsent monomials.now monomial.now) }
{
    let mut link = heads.at(chain_of(monomial, heads.len()));
    while link != 0 {
        let number = link - 1;
        if are_same(monomials.at(number), monomial) {
            return Some(number as u64);
        }
        link = links.at(number);
    }
    None
}

// Links the monomials anew, where there is no chain more than there are of them.
#[inline(always)]
fn make_wide(
    alloc: Global,
    monomials: &Lists,
    heads: &mut Numbers,
    links: &mut Numbers,
) -> Result<(), AllocError>
    requires { IsChained monomials.now heads.old links.old }
    ensures chained { IsChained monomials.now heads.new links.new }
    ensures wide { OnOk result (length monomials.now < length heads.new) }
{
    if monomials.len() == heads.len() {
        let (new_heads, new_links) = linked(alloc, monomials, chains_for(monomials.len())?)?;
        *heads = new_heads;
        *links = new_links;
    }
    Ok(())
}

// How many chains there are from so many monomials on. No memory holds so many that they can't be doubled.
fn chains_for(monomials: usize) -> Result<usize, AllocError>
    ensures { IfOk result (λ count. monomials < count) }
{
    match monomials.checked_mul(2) {
        Some(twice) => Ok(twice.max(FEW)),
        None => Err(AllocError),
    }
}

// The heads and the links of monomials in so many chains.
#[inline(never)]
fn linked(alloc: Global, monomials: &Lists, count: usize) -> Result<(Numbers, Numbers), AllocError>
    requires some { 0 < count }
    ensures heads { IfOk result (λ r. length r.0 ≡ count) }
    ensures links { IfOk result (λ r. length r.1 ≡ length monomials.now) }
    ensures linked { IfOk result (λ r. AreLinked count monomials.now r.0 r.1) }
{
    let mut heads = Numbers::zeros(alloc, count)?;
    let mut links = Numbers::with_capacity(alloc, count)?;
    for number in 0..monomials.len() {
        hang(monomials.at(number), &mut heads, &mut links)?;
    }
    Ok((heads, links))
}

// Puts the next number at the head of its monomial's chain.
#[inline(always)]
fn hang(monomial: &[u32], heads: &mut Numbers, links: &mut Numbers) -> Result<(), AllocError>
    requires some { 0 < length heads.old }
    ensures hangs { OnOk result
        (Hangs (chain_of (length heads.old) monomial.now) heads.old links.old heads.new links.new) }
    ensures unchanged_heads { OnErr result (heads.new ≡ heads.old) }
    ensures unchanged_links { OnErr result (links.new ≡ links.old) }
{
    let chain = chain_of(monomial, heads.len());
    let count = links.len();
    links.push(heads.at(chain))?;
    match heads.put(chain, links.len()) {
        Ok(()) => Ok(()),
        Err(fail) => {
            links.truncate(count);
            Err(fail)
        }
    }
}

// Which of so many chains a monomial is in.
#[inline(always)]
fn chain_of(monomial: &[u32], count: usize) -> usize
    requires { 0 < count }
    ensures chain { result ≡ chain_of count monomial.now }
    ensures within { result < count }
{
    folded(monomial) as usize & (count - 1)
}

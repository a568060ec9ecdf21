// Monomials, each with one number.
ghost use Rattle.std.specs.Prelude.{◌≡◌, ◌<◌, [], IfOk, length, get_or};
ghost use Rattle.algebra_core.specs.NormalForm.{AreRising};
ghost use Rattle.poly_terms.specs.Monomials.{AreMonomials, Grows, Stands, joined, without_variable};

use crate::chains::Chains;
use crate::monomial::{self, MOST_PLACES, Monomial};
use std::alloc::{AllocError, Global};
use std::marker::Model;

/// Monomials by number: each stands once, and its place is its number.
#[derive(Drop)]
pub(crate) struct Numbering {
    alloc: Global,
    monomials: Chains,
}

impl Model for Numbering {
    ghost use Rattle.std.specs.Prelude.{List, ℕ};
    ghost use Rattle.poly_terms.specs.Monomials.{AreMonomials};

    ghost Value = { List (List ℕ) };

    ghost view = { λ n. n.monomials };

    ghost invariant = { λ n. AreMonomials n.monomials };
}

impl Numbering {
    pub(crate) fn new(alloc: Global) -> Numbering
        ensures { result ≡ [] }
    {
        Numbering {
            alloc,
            monomials: Chains::new(alloc),
        }
    }

    /// No monomial yet, with room for so many.
    pub(crate) fn with_capacity(alloc: Global, count: usize) -> Result<Numbering, AllocError>
        ensures { IfOk result (λ n. n ≡ []) }
    {
        Ok(Numbering {
            alloc,
            monomials: Chains::with_capacity(alloc, count)?,
        })
    }

    /// How many monomials there are.
    pub(crate) fn len(&self) -> u64
        ensures { result ≡ length self.now }
    {
        self.monomials.len()
    }

    /// The number of a monomial, which is added where it is new.
    #[inline(always)]
    pub(crate) fn intern(&mut self, monomial: Monomial) -> Result<u64, AllocError>
        requires { AreRising 0 monomial.items }
        ensures grows { Grows self.old self.new }
        ensures once { AreMonomials self.new }
        ensures number { IfOk result (λ n. Stands self.new n monomial.items) }
    {
        match self.monomials.find(monomial.as_slice()) {
            Some(number) => Ok(number),
            None => self.monomials.add(monomial.as_slice()),
        }
    }

    /// The same of a monomial's variables.
    #[inline(always)]
    pub(crate) fn intern_slice(&mut self, variables: &[u32]) -> Result<u64, AllocError>
        requires { AreRising 0 variables.now }
        ensures grows { Grows self.old self.new }
        ensures number { IfOk result (λ n. Stands self.new n variables.now) }
    {
        match self.monomials.find(variables) {
            Some(number) => Ok(number),
            None => self.monomials.add(variables),
        }
    }

    /// Each monomial rises and stands once.
    pub(crate) fn stand_once(&self)
        ensures { AreMonomials self.now }
    {
        let _ = &self.alloc;
    }

    /// The variables of a number.
    #[inline(always)]
    pub(crate) fn variables(&self, number: u64) -> &[u32]
        requires { number < length self.now }
        ensures value { get_or self.now number [] ≡ result.now }
        ensures rising { AreRising 0 result.now }
    {
        self.monomials.variables(number)
    }

    /// The number of a monomial times that of a number, which is added where it is new.
    #[inline(always)]
    pub(crate) fn multiple(&mut self, monomial: &[u32], number: u64) -> Result<u64, AllocError>
        requires number { number < length self.old }
        requires rising { AreRising 0 monomial.now }
        ensures grows { Grows self.old self.new }
        ensures number { IfOk result (λ n. Stands self.new n (joined monomial.now (get_or self.old number []))) }
    {
        // 1 times it
        if monomial.is_empty() {
            return Ok(number);
        }
        let variables = self.variables(number);
        if monomial.len() + variables.len() <= MOST_PLACES {
            let mut places = [0, 0, 0, 0, 0, 0, 0, 0];
            let count = monomial::join_few(monomial, variables, &mut places);
            return self.intern_slice(&places[..count]);
        }
        let both = monomial::join(self.alloc, monomial, variables)?;
        self.intern(both)
    }

    /// The number of the product of two numbers' monomials, which is added where it is new.
    pub(crate) fn product(&mut self, left: u64, right: u64) -> Result<u64, AllocError>
        requires left { left < length self.old }
        requires right { right < length self.old }
        ensures grows { Grows self.old self.new }
        ensures number { IfOk result
            (λ n. Stands self.new n (joined (get_or self.old left []) (get_or self.old right []))) }
    {
        // by 1
        if self.variables(left).is_empty() {
            return Ok(right);
        }
        if self.variables(right).is_empty() {
            return Ok(left);
        }
        let both = monomial::join(self.alloc, self.variables(left), self.variables(right))?;
        self.intern(both)
    }

    /// The monomial of a number, without a variable.
    pub(crate) fn without(&self, number: u64, v: u32) -> Result<Monomial, AllocError>
        requires { number < length self.now }
        ensures value { IfOk result (λ rest. rest.items ≡ without_variable v (get_or self.now number [])) }
        ensures rising { IfOk result (λ rest. AreRising 0 rest.items) }
    {
        monomial::without(self.alloc, self.variables(number), v)
    }
}

// Coefficients by the numbers of monomials, with a count of those that aren't 0.
ghost use Rattle.std.specs.Prelude.{◌≡◌, ◌≢◌, ◌+◌, ◌<◌, ◌^◌, ◌++◌, ◌∷◌, [], IfOk, OnErr, OnOk, get_or, length, set};
ghost use Rattle.poly_terms.specs.Indexed.{IsLonger, counted, terms_from};

use crate::coefficients::Coefficients;
use crate::term::Term;
use std::alloc::{AllocError, Global};
use std::marker::Model;

/// The coefficients of a polynomial, by number. A number past the end has 0.
#[derive(Debug, Drop)]
pub(crate) struct CountedCoefficients {
    coefficients: Coefficients,
    /// how many aren't 0
    count: u64,
}

impl Model for CountedCoefficients {
    ghost use Rattle.std.specs.Prelude.{List, ℕ, ◌≡◌, length};
    ghost use Rattle.poly_terms.specs.Indexed.{terms_from};

    ghost Value = { List ℕ };

    ghost view = { λ c. c.coefficients };

    ghost invariant = { λ c. c.count ≡ length (terms_from 0 c.coefficients) };
}

impl CountedCoefficients {
    pub(crate) fn new(alloc: Global) -> CountedCoefficients
        ensures { result ≡ [] }
    {
        CountedCoefficients {
            coefficients: Coefficients::new(alloc),
            count: 0,
        }
    }

    /// Has a number within, by as many 0 as it takes.
    #[inline(always)]
    pub(crate) fn reach(&mut self, number: u64) -> Result<(), AllocError>
        ensures longer { IsLonger self.old self.new }
        ensures long { OnOk result (number < length self.new) }
    {
        self.coefficients.reach(number)
    }

    /// Puts a coefficient in place of a number's.
    #[inline(always)]
    pub(crate) fn put(&mut self, number: u64, coefficient: u128) -> Result<(), AllocError>
        requires { number < length self.old }
        ensures put { OnOk result (self.new ≡ set self.old number coefficient) }
        ensures kept { OnErr result (self.new ≡ self.old) }
    {
        let _length = self.coefficients.len();
        let count = recount(self.count, self.coefficients.at(number), coefficient);
        self.coefficients.put(number, coefficient)?;
        self.count = count;
        Ok(())
    }

    /// Puts 0 in place of a number's.
    #[inline(always)]
    pub(crate) fn clear(&mut self, number: u64)
        requires { number < length self.old }
        ensures { self.new ≡ set self.old number 0 }
    {
        let _length = self.coefficients.len();
        self.count = recount(self.count, self.coefficients.at(number), 0);
        self.coefficients.clear(number);
    }

    /// The coefficient of a number.
    #[inline(always)]
    pub(crate) fn at(&self, number: u64) -> u128
        ensures { result ≡ get_or self.now number 0 }
    {
        self.coefficients.at(number)
    }

    /// How many terms there are.
    pub(crate) fn count(&self) -> u64
        ensures { result ≡ length (terms_from 0 self.now) }
    {
        self.count
    }

    /// The terms, rising.
    pub(crate) fn terms(&self, alloc: Global) -> Result<Vec<Term>, AllocError>
        ensures { IfOk result (λ out. out.items ≡ terms_from 0 self.now) }
    {
        terms_of(alloc, &self.coefficients)
    }
}

// How many there are once a coefficient stands in place of another.
#[inline(always)]
fn recount(count: u64, before: u128, after: u128) -> u64
    requires some { before ≢ 0 → 0 < count }
    requires room { before ≡ 0 → count + 1 < 2 ^ 64 }
    ensures { result + counted before ≡ count + counted after }
{
    if before == 0 {
        if after == 0 { count } else { count + 1 }
    } else if after == 0 {
        count - 1
    } else {
        count
    }
}

fn terms_of(alloc: Global, coefficients: &Coefficients) -> Result<Vec<Term>, AllocError>
    ensures { IfOk result (λ out. out.items ≡ terms_from 0 coefficients.now) }
{
    let mut out = Vec::new(alloc);
    for number in 0..coefficients.len() {
        push_term(number as u64, coefficients.at(number as u64), &mut out)?;
    }
    Ok(out)
}

// A term after others, unless it is 0.
fn push_term(number: u64, coefficient: u128, out: &mut Vec<Term>) -> Result<(), AllocError>
    ensures { OnOk result (out.new.items ≡ out.old.items ++ terms_from number (coefficient ∷ [])) }
{
    if coefficient != 0 {
        out.push(Term::new(number, coefficient))?;
    }
    Ok(())
}

// What is left of the columns: monomials with coefficients.
use crate::monomials::Monomial;
use graph_core::Memory;
use indexmap::IndexSet;
use std::alloc::Global;
use std::mem;

// A table with less than so many monomials, or than this many times those that are left, is never made anew.
const SMALL_TABLE: usize = 1024;

const MANY_GONE: usize = 4;

/// A polynomial modulo a power of two over variables up to `max`, and by variable which of its monomials may have it.
#[derive(Drop)]
pub(crate) struct Frontier {
    alloc: Global,
    max: u32,
    /// the greatest coefficient
    mask: u128,
    /// how long a variable is in a text, at most
    width: u64,
    monomials: IndexSet<Monomial>,
    /// by monomial, 0 where it is gone
    coefficients: Vec<u128>,
    /// by monomial: whether it may not be normal
    loose: Vec<bool>,
    /// by variable
    places: Vec<Vec<usize>>,
    size: u64,
    /// how long its text is, at most
    bytes: u64,
}

impl Frontier {
    /// The polynomial 0, over variables up to this one, modulo 2 to this power.
    pub(crate) fn new(alloc: Global, max: u32, exponent: u32) -> Result<Frontier, Memory> {
        Ok(Frontier {
            alloc,
            max,
            mask: mask_of(exponent),
            width: u64::from(decimal_digits(u128::from(max))).saturating_add(2),
            monomials: IndexSet::new(alloc),
            coefficients: Vec::new(alloc),
            loose: Vec::new(alloc),
            places: no_places(alloc, max)?,
            size: 0,
            bytes: 0,
        })
    }

    /// How many monomials there are.
    pub(crate) fn size(&self) -> u64 {
        self.size
    }

    /// How long the polynomial's text is, at most.
    pub(crate) fn bytes(&self) -> u64 {
        self.bytes
    }

    /// How long the text of a term is, at most.
    pub(crate) fn length(&self, coefficient: u128, variables: usize) -> u64 {
        let least = coefficient.min(self.opposite(coefficient));
        let number = u64::from(decimal_digits(least)).saturating_add(2);
        number.saturating_add(self.width.saturating_mul(variables as u64))
    }

    /// Adds a coefficient times a monomial, and tells that one's number and whether it is new.
    pub(crate) fn add(
        &mut self,
        monomial: Monomial,
        coefficient: u128,
    ) -> Result<(usize, bool), Memory> {
        let (number, is_new) = self.monomials.insert_full(monomial)?;
        if is_new {
            self.coefficients.push(0)?;
            self.loose.push(false)?;
            self.enter(number)?;
        }
        self.put(number, coefficient);
        Ok((number, is_new))
    }

    // Puts a number at the places of its variables.
    fn enter(&mut self, number: usize) -> Result<(), Memory> {
        if let Some(monomial) = self.monomials.get_index(number) {
            for v in monomial.as_slice() {
                if let Some(numbers) = self.places.get_mut(*v as usize) {
                    numbers.push(number)?;
                }
            }
        }
        Ok(())
    }

    /// Adds to the coefficient of a monomial.
    pub(crate) fn put(&mut self, number: usize, coefficient: u128) {
        let variables = self.variables(number).len();
        let before = self.coefficient(number);
        let after = before.wrapping_add(coefficient) & self.mask;
        if before != 0 {
            self.size = self.size.saturating_sub(1);
            self.bytes = self.bytes.saturating_sub(self.length(before, variables));
        }
        if after != 0 {
            self.size = self.size.saturating_add(1);
            self.bytes = self.bytes.saturating_add(self.length(after, variables));
        }
        if let Some(place) = self.coefficients.get_mut(number) {
            *place = after;
        }
    }

    /// The coefficient of a monomial.
    pub(crate) fn coefficient(&self, number: usize) -> u128 {
        match self.coefficients.get(number) {
            Some(coefficient) => *coefficient,
            None => 0,
        }
    }

    /// The variables of a monomial.
    pub(crate) fn variables(&self, number: usize) -> &[u32] {
        match self.monomials.get_index(number) {
            Some(monomial) => monomial.as_slice(),
            None => &[],
        }
    }

    /// Whether a monomial may not be normal.
    pub(crate) fn is_loose(&self, number: usize) -> bool {
        self.loose.get(number) == Some(&true)
    }

    /// From now on a monomial may not be normal.
    pub(crate) fn set_loose(&mut self, number: usize) {
        if let Some(loose) = self.loose.get_mut(number) {
            *loose = true;
        }
    }

    /// Whether a monomial has a variable.
    pub(crate) fn has(&self, v: u32) -> bool {
        match self.places.get(v as usize) {
            Some(places) => places.iter().any(|number| self.coefficient(*number) != 0),
            None => false,
        }
    }

    /// The monomials that have a variable.
    pub(crate) fn with(&self, v: u32) -> Result<Vec<usize>, Memory> {
        let mut numbers = Vec::new(self.alloc);
        if let Some(places) = self.places.get(v as usize) {
            for number in places.iter() {
                if self.coefficient(*number) != 0 {
                    numbers.push(*number)?;
                }
            }
        }
        Ok(numbers)
    }

    /// Minus a coefficient.
    pub(crate) fn opposite(&self, coefficient: u128) -> u128 {
        0u128.wrapping_sub(coefficient) & self.mask
    }

    /// A coefficient divided by a power of two that divides it, as near to 0 as can be.
    pub(crate) fn divided(&self, coefficient: u128, power: u32) -> u128 {
        if coefficient > self.mask / 2 {
            self.opposite(shifted(self.opposite(coefficient), power))
        } else {
            shifted(coefficient, power)
        }
    }

    /// Makes the table anew where most of its monomials are gone. Numbers change.
    pub(crate) fn settle(&mut self) -> Result<(), Memory> {
        let many = (self.size as usize).saturating_mul(MANY_GONE);
        if self.monomials.len() <= many.saturating_add(SMALL_TABLE) {
            return Ok(());
        }
        let monomials = mem::replace(&mut self.monomials, IndexSet::new(self.alloc));
        let coefficients = mem::replace(&mut self.coefficients, Vec::new(self.alloc));
        let loose = mem::replace(&mut self.loose, Vec::new(self.alloc));
        self.places = no_places(self.alloc, self.max)?;
        self.size = 0;
        self.bytes = 0;
        self.add_left(monomials, &coefficients, &loose)
    }

    // Adds the monomials that are left of an older table.
    fn add_left(
        &mut self,
        monomials: IndexSet<Monomial>,
        coefficients: &[u128],
        loose: &[bool],
    ) -> Result<(), Memory> {
        for (number, monomial) in monomials.into_iter().enumerate() {
            let coefficient = match coefficients.get(number) {
                Some(coefficient) => *coefficient,
                None => 0,
            };
            if coefficient != 0 {
                let (anew, _) = self.add(monomial, coefficient)?;
                if loose.get(number) == Some(&true) {
                    self.set_loose(anew);
                }
            }
        }
        Ok(())
    }
}

// No number at any of the variables.
fn no_places(alloc: Global, max: u32) -> Result<Vec<Vec<usize>>, Memory> {
    let mut places = Vec::new(alloc);
    for _ in 0..=max {
        places.push(Vec::new(alloc))?;
    }
    Ok(places)
}

// The greatest number below 2 to a power.
fn mask_of(exponent: u32) -> u128 {
    if exponent < 128 {
        (1u128 << exponent) - 1
    } else {
        u128::MAX
    }
}

// A number divided by a power of two.
fn shifted(number: u128, power: u32) -> u128 {
    if power < 128 { number >> power } else { 0 }
}

// How many decimal digits a number has, at most.
fn decimal_digits(number: u128) -> u32 {
    let bits = 128 - number.leading_zeros().min(128);
    bits / 3 + 1
}

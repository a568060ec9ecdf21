// Lists of numbers that take four bytes each.
ghost use Rattle.std.specs.Prelude.{◌≡◌, ◌<◌, ◌^◌, ◌++◌, ◌∷◌, [], IfOk, OnErr, OnOk, get_or, length, replicate, set, take};
ghost use Rattle.poly_terms.specs.Lists.{start_at};

use std::alloc::{AllocError, Global};
use std::marker::Model;

// The least number that takes more than four bytes.
const TOO_WIDE: usize = 1 << 32;

/// Numbers in a list. Those before the first one of 2^32 or more take four bytes each, the others eight.
#[derive(Debug, Drop)]
pub(crate) struct Numbers {
    alloc: Global,
    narrow: Vec<u32>,
    wide: Vec<usize>,
}

impl Model for Numbers {
    ghost use Rattle.std.specs.Prelude.{List, ℕ, ◌++◌};

    ghost Value = { List ℕ };

    ghost view = { λ n. n.narrow.items ++ n.wide.items };
}

impl Numbers {
    pub(crate) fn new(alloc: Global) -> Numbers
        ensures { result ≡ [] }
    {
        Numbers {
            alloc,
            narrow: Vec::new(alloc),
            wide: Vec::new(alloc),
        }
    }

    /// No number yet, with room for so many.
    pub(crate) fn with_capacity(alloc: Global, count: usize) -> Result<Numbers, AllocError>
        ensures { IfOk result (λ n. n ≡ []) }
    {
        Ok(Numbers {
            alloc,
            narrow: Vec::with_capacity(alloc, count)?,
            wide: Vec::new(alloc),
        })
    }

    /// So many times 0.
    pub(crate) fn zeros(alloc: Global, count: usize) -> Result<Numbers, AllocError>
        ensures { IfOk result (λ n. n ≡ replicate count 0) }
    {
        Ok(Numbers {
            alloc,
            narrow: vec![in alloc; 0; count]?,
            wide: Vec::new(alloc),
        })
    }

    pub(crate) fn len(&self) -> usize
        ensures { result ≡ length self.now }
    {
        self.narrow.len() + self.wide.len()
    }

    /// The number at a place.
    #[inline(always)]
    pub(crate) fn at(&self, place: usize) -> usize
        requires { place < length self.now }
        ensures { result ≡ get_or self.now place 0 }
    {
        at(&self.narrow, &self.wide, place)
    }

    /// The number before that at a place, or 0 where it is the first, and that at the place.
    #[inline(always)]
    pub(crate) fn around(&self, place: usize) -> (usize, usize)
        requires { place < length self.now }
        ensures before { result.0 ≡ start_at 0 self.now place }
        ensures at { result.1 ≡ get_or self.now place 0 }
    {
        if place < self.narrow.len() {
            return narrow_around(&self.narrow, place);
        }
        any_around(&self.narrow, &self.wide, place)
    }

    /// One more number, after the others.
    #[inline(always)]
    pub(crate) fn push(&mut self, number: usize) -> Result<(), AllocError>
        ensures pushed { OnOk result (self.new ≡ self.old ++ number ∷ []) }
        ensures unchanged { OnErr result (self.new ≡ self.old) }
    {
        push(&mut self.narrow, &mut self.wide, number)
    }

    /// Puts a number in place of another.
    #[inline(always)]
    pub(crate) fn put(&mut self, place: usize, number: usize) -> Result<(), AllocError>
        requires { place < length self.old }
        ensures put { OnOk result (self.new ≡ set self.old place number) }
        ensures unchanged { OnErr result (self.new ≡ self.old) }
    {
        if place < self.narrow.len() && number >= TOO_WIDE {
            let all = widened(self.alloc, &self.narrow, &self.wide)?;
            self.narrow = Vec::new(self.alloc);
            self.wide = all;
        }
        put(&mut self.narrow, &mut self.wide, place, number);
        Ok(())
    }

    /// Leaves the first so many.
    pub(crate) fn truncate(&mut self, count: usize)
        ensures { self.new ≡ take count self.old }
    {
        let behind = count.saturating_sub(self.narrow.len());
        self.narrow.truncate(count);
        self.wide.truncate(behind);
    }
}

#[inline(always)]
fn at(narrow: &[u32], wide: &[usize], place: usize) -> usize
    requires { place < length (narrow.now ++ wide.now) }
    ensures { result ≡ get_or (narrow.now ++ wide.now) place 0 }
{
    if place < narrow.len() {
        narrow[place] as usize
    } else {
        wide[place - narrow.len()]
    }
}

// The number before a place, and that at it, where both are narrow.
#[inline(always)]
fn narrow_around(narrow: &[u32], place: usize) -> (usize, usize)
    requires { place < length narrow.now }
    ensures before { result.0 ≡ start_at 0 narrow.now place }
    ensures at { result.1 ≡ get_or narrow.now place 0 }
{
    let before = if place == 0 {
        0
    } else {
        narrow[place - 1] as usize
    };
    (before, narrow[place] as usize)
}

// The same of any, apart so that the test is inlined.
#[inline(never)]
fn any_around(narrow: &[u32], wide: &[usize], place: usize) -> (usize, usize)
    requires { place < length (narrow.now ++ wide.now) }
    ensures before { result.0 ≡ start_at 0 (narrow.now ++ wide.now) place }
    ensures at { result.1 ≡ get_or (narrow.now ++ wide.now) place 0 }
{
    let before = if place == 0 {
        0
    } else {
        at(narrow, wide, place - 1)
    };
    (before, at(narrow, wide, place))
}

#[inline(always)]
fn push(narrow: &mut Vec<u32>, wide: &mut Vec<usize>, number: usize) -> Result<(), AllocError>
    ensures pushed { OnOk result (narrow.new.items ++ wide.new.items ≡
        (narrow.old.items ++ wide.old.items) ++ number ∷ []) }
    ensures unchanged { OnErr result (narrow.new.items ++ wide.new.items ≡ narrow.old.items ++ wide.old.items) }
{
    if number < TOO_WIDE && wide.is_empty() {
        narrow.push(number as u32)?;
    } else {
        wide.push(number)?;
    }
    Ok(())
}

#[inline(always)]
fn put(narrow: &mut [u32], wide: &mut [usize], place: usize, number: usize)
    requires within { place < length (narrow.old ++ wide.old) }
    requires fits { place < length narrow.old → number < 2 ^ 32 }
    ensures { narrow.new ++ wide.new ≡ set (narrow.old ++ wide.old) place number }
{
    if place < narrow.len() {
        narrow[place] = number as u32;
    } else {
        wide[place - narrow.len()] = number;
    }
}

// All of them, with eight bytes each.
#[inline(never)]
fn widened(alloc: Global, narrow: &[u32], wide: &[usize]) -> Result<Vec<usize>, AllocError>
    ensures { IfOk result (λ all. all.items ≡ narrow.now ++ wide.now) }
{
    let mut all = Vec::with_capacity(alloc, narrow.len())?;
    for number in narrow {
        all.push(*number as usize)?;
    }
    all.extend_from_slice(wide)?;
    Ok(all)
}

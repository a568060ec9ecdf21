// Lists of variables, one behind the other in one vector.
ghost use Rattle.std.specs.Prelude.{◌≡◌, ◌<◌, ◌≤◌, ◌+◌, ◌++◌, ◌∷◌, [], IfOk, OnErr, OnOk, get_or, length, slice_range, take, vec_capacity, vec_len};
ghost use Rattle.poly_terms.specs.Lists.{AreEnds, start_at};

use crate::numbers::Numbers;
use std::alloc::{AllocError, Global};
use std::marker::Model;

/// Lists by number. None takes memory of its own.
#[derive(Debug, Drop)]
pub(crate) struct Lists {
    variables: Vec<u32>,
    /// by number: the place behind the list's last variable, where the next list begins
    ends: Numbers,
}

impl Model for Lists {
    ghost use Rattle.std.specs.Prelude.{List, ℕ, length};
    ghost use Rattle.poly_terms.specs.Lists.{AreEnds, lists_from};

    ghost Value = { List (List ℕ) };

    ghost view = { λ l. lists_from 0 l.variables.items l.ends };

    ghost invariant = { λ l. AreEnds 0 (length l.variables.items) l.ends };
}

impl Lists {
    pub(crate) fn new(alloc: Global) -> Lists
        ensures { result ≡ [] }
    {
        Lists {
            variables: Vec::new(alloc),
            ends: Numbers::new(alloc),
        }
    }

    /// No list yet, with room for so many of one or two variables each.
    pub(crate) fn with_capacity(alloc: Global, count: usize) -> Result<Lists, AllocError>
        ensures { IfOk result (λ l. l ≡ []) }
    {
        Ok(Lists {
            variables: Vec::with_capacity(alloc, count)?,
            ends: Numbers::with_capacity(alloc, count)?,
        })
    }

    /// How many lists there are.
    #[inline(always)]
    pub(crate) fn len(&self) -> usize
        ensures { result ≡ length self.now }
    {
        self.ends.len()
    }

    /// The list of a number.
    #[inline(always)]
    pub(crate) fn at(&self, number: usize) -> &[u32]
        requires { number < length self.now }
        ensures { get_or self.now number [] ≡ result.now }
    {
        let (start, end) = self.ends.around(number);
        part(&self.variables, start, end)
    }

    /// One more list, after the others.
    #[inline(always)]
    pub(crate) fn push(&mut self, list: &[u32]) -> Result<(), AllocError>
        ensures pushed { OnOk result (self.new ≡ self.old ++ list.now ∷ []) }
        ensures unchanged { OnErr result (self.new ≡ self.old) }
    {
        self.variables.try_reserve(list.len())?;
        self.ends.push(self.variables.len() + list.len())?;
        push_all(list, &mut self.variables);
        Ok(())
    }

    /// Leaves the first so many.
    pub(crate) fn truncate(&mut self, count: usize)
        ensures { self.new ≡ take count self.old }
    {
        if count < self.len() {
            self.variables.truncate(start_of(&self.ends, count));
            self.ends.truncate(count);
        }
    }
}

// Where the list of a number begins.
#[inline(always)]
fn start_of(ends: &Numbers, number: usize) -> usize
    requires { number ≤ length ends.now }
    ensures { result ≡ start_at 0 ends.now number }
{
    if number == 0 { 0 } else { ends.at(number - 1) }
}

#[inline(always)]
fn part(variables: &[u32], start: usize, end: usize) -> &[u32]
    requires order { start ≤ end }
    requires within { end ≤ length variables.now }
    ensures { slice_range variables.entry.now start end ≡ result.now }
{
    &variables[start..end]
}

// One by one: most often there are one or two.
#[inline(always)]
fn push_all(list: &[u32], variables: &mut Vec<u32>)
    requires { vec_len variables.old + length list.now ≤ vec_capacity variables.old }
    ensures { variables.new.items ≡ variables.old.items ++ list.now }
{
    for v in list {
        variables.push_reserved(*v);
    }
}

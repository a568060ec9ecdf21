// Monomials: rising lists of variables. Nearly all are short, and stay inline.
ghost use Rattle.std.specs.Prelude.{◌≡◌, ◌<◌, ◌≤◌, ◌+◌, ◌++◌, ◌∷◌, [], false, IfOk, IsTrue, length, take};
ghost use Rattle.algebra_core.specs.NormalForm.{AreRising};
ghost use Rattle.poly_terms.specs.Monomials.{IsMonomialOf, has_variable, joined, without_variable};
ghost use Rattle.smallvec.specs.SmallVec.{HasRoomFor};

use smallvec::SmallVec;
use std::alloc::{AllocError, Global};
use std::cmp::Ordering;

// So many variables take no memory of their own.
const FEW: usize = 4;

// The places of both factors, where a product is put together before it is known how many variables it has.
pub(crate) const MOST_PLACES: usize = 8;

pub(crate) type Monomial = SmallVec<u32, FEW>;

/// The product of two monomials: the variables of either, since a truth value is its own square.
#[inline(always)]
pub(crate) fn join(alloc: Global, left: &[u32], right: &[u32]) -> Result<Monomial, AllocError>
    ensures { IfOk result (λ both. both.items ≡ joined left.now right.now) }
{
    if left.len() + right.len() <= MOST_PLACES {
        let mut both = [0, 0, 0, 0, 0, 0, 0, 0];
        let count = join_few(left, right, &mut both);
        return front(alloc, &both, count);
    }
    join_many(alloc, left, right)
}

/// The same of two monomials that have few variables, as nearly all have: puts the product into the first places, and
/// gives how many variables it has. Those that both have count twice here.
#[inline(always)]
pub(crate) fn join_few(left: &[u32], right: &[u32], both: &mut [u32; MOST_PLACES]) -> usize
    requires { length left.now + length right.now ≤ 8 }
    ensures items { take result both.new ≡ joined left.now right.now }
    ensures within { result ≤ 8 }
{
    let mut count: usize = 0;
    let mut i: usize = 0;
    let mut j: usize = 0;
    while i < left.len() && j < right.len() {
        let x = left[i];
        let y = right[j];
        match x.cmp(&y) {
            Ordering::Less => {
                both[count] = x;
                count += 1;
                i += 1;
            }
            Ordering::Greater => {
                both[count] = y;
                count += 1;
                j += 1;
            }
            Ordering::Equal => {
                both[count] = x;
                count += 1;
                i += 1;
                j += 1;
            }
        }
    }
    let with_left = put_all(&left[i..], both, count);
    put_all(&right[j..], both, with_left)
}

// Puts variables after so many, and gives how many there are then. Of most factors one or two are left, which a loop
// would copy by a call.
#[inline(always)]
fn put_all(variables: &[u32], both: &mut [u32; MOST_PLACES], count: usize) -> usize
    requires { count + length variables.now ≤ 8 }
    ensures items { take result both.new ≡ take count both.old ++ variables.now }
    ensures count { result ≡ count + length variables.now }
{
    if variables.len() == 1 {
        return put(variables[0], both, count);
    }
    if variables.len() == 2 {
        let with_first = put(variables[0], both, count);
        return put(variables[1], both, with_first);
    }
    let mut place = count;
    for v in variables {
        both[place] = *v;
        place += 1;
    }
    place
}

// Puts a variable after so many, and gives how many there are then.
#[inline(always)]
fn put(v: u32, both: &mut [u32; MOST_PLACES], count: usize) -> usize
    requires { count < 8 }
    ensures items { take result both.new ≡ take count both.old ++ v ∷ [] }
    ensures count { result ≡ count + 1 }
{
    both[count] = v;
    count + 1
}

// The first so many places.
fn front(alloc: Global, both: &[u32; MOST_PLACES], count: usize) -> Result<Monomial, AllocError>
    requires { count ≤ 8 }
    ensures { IfOk result (λ monomial. monomial.items ≡ take count both.now) }
{
    if count <= FEW {
        let few = [both[0], both[1], both[2], both[3]];
        return Ok(SmallVec::from_buf_and_len(alloc, few, count));
    }
    SmallVec::from_slice(alloc, &both[..count])
}

fn join_many(alloc: Global, left: &[u32], right: &[u32]) -> Result<Monomial, AllocError>
    ensures { IfOk result (λ both. both.items ≡ joined left.now right.now) }
{
    let mut out = SmallVec::with_capacity(alloc, left.len() + right.len())?;
    let mut i: usize = 0;
    let mut j: usize = 0;
    while i < left.len() && j < right.len() {
        let x = left[i];
        let y = right[j];
        match x.cmp(&y) {
            Ordering::Less => {
                out.push_reserved(x);
                i += 1;
            }
            Ordering::Greater => {
                out.push_reserved(y);
                j += 1;
            }
            Ordering::Equal => {
                out.push_reserved(x);
                i += 1;
                j += 1;
            }
        }
    }
    push_all(&left[i..], &mut out);
    push_all(&right[j..], &mut out);
    Ok(out)
}

/// The monomial of variables in any order, of which some may be repeated and none is the constant.
pub(crate) fn from_variables(alloc: Global, variables: &[u32]) -> Result<Monomial, AllocError>
    requires { has_variable 0 variables.now ≡ false }
    ensures { IfOk result (λ monomial. IsMonomialOf variables.now monomial.items) }
{
    if is_rising(variables) {
        return copy(alloc, variables);
    }
    if variables.len() < 2 {
        return SmallVec::from_slice(alloc, variables);
    }
    let (front, back) = variables.split_at(variables.len() / 2);
    let left = from_variables(alloc, front)?;
    let right = from_variables(alloc, back)?;
    join(alloc, left.as_slice(), right.as_slice())
}

/// Whether the variables are a monomial's as they stand.
#[inline(always)]
pub(crate) fn is_rising(variables: &[u32]) -> bool
    ensures { IsTrue result → AreRising 0 variables.now }
{
    let mut last: u32 = 0;
    for v in variables {
        if *v <= last {
            return false;
        }
        last = *v;
    }
    true
}

#[inline(always)]
pub(crate) fn copy(alloc: Global, variables: &[u32]) -> Result<Monomial, AllocError>
    ensures { IfOk result (λ monomial. monomial.items ≡ variables.now) }
{
    // Most often they take no memory.
    if variables.len() <= FEW {
        let mut few = SmallVec::new(alloc);
        push_all(variables, &mut few);
        return Ok(few);
    }
    let mut out = SmallVec::with_capacity(alloc, variables.len())?;
    push_all(variables, &mut out);
    Ok(out)
}

#[inline(always)]
pub(crate) fn has_variable(variables: &[u32], v: u32) -> bool
    ensures { result ≡ has_variable v variables.now }
{
    variables.iter().any(|u| *u == v)
}

/// The monomial without a variable.
pub(crate) fn without(alloc: Global, variables: &[u32], v: u32) -> Result<Monomial, AllocError>
    ensures { IfOk result (λ rest. rest.items ≡ without_variable v variables.now) }
{
    let mut rest = SmallVec::with_capacity(alloc, variables.len())?;
    for u in variables {
        if *u != v {
            rest.push_reserved(*u);
        }
    }
    Ok(rest)
}

// one by one: most often there is none, or one
#[inline(always)]
fn push_all(variables: &[u32], out: &mut Monomial)
    requires { HasRoomFor out.old (length variables.now) }
    ensures items { out.new.items ≡ out.old.items ++ variables.now }
    ensures capacity { out.new.capacity ≡ out.old.capacity }
{
    for v in variables {
        out.push_reserved(*v);
    }
}

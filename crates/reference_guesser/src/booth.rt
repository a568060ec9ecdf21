// Multiples of an operand by digits of the other, of radix 4.
use crate::gates::Gates;
use crate::products::Products;
use graph_core::{Lit, Memory, Operands, Sign};
use std::alloc::Global;

/// Puts a multiple of a for each digit of b: a digit is -2 to 2, by two bits and the one below them.
pub(crate) fn put_multiples(
    alloc: Global,
    gates: &mut Gates<'_>,
    operands: &Operands,
    products: &mut Products,
) -> Result<(), Memory> {
    let is_signed = operands.sign() == Sign::Signed;
    let bits = digits_of(alloc, operands.b_literals(), is_signed)?;
    let a = multiplied(alloc, operands.a_literals(), is_signed)?;
    for (place, digit) in bits.iter().enumerate() {
        let low = place.wrapping_mul(2);
        put_multiple(gates, products, *digit, low, &a, is_signed)?;
    }
    Ok(())
}

// A digit: the highest bit makes it negative, and of the others each counts 1.
#[derive(Clone, Copy, Debug)]
struct Digit {
    high: Lit,
    middle: Lit,
    low: Lit,
}

// The digits of an operand, as many as it needs.
fn digits_of(alloc: Global, bits: &[Lit], is_signed: bool) -> Result<Vec<Digit>, Memory> {
    let above = if is_signed { last(bits) } else { Lit(0) };
    let count = if is_signed {
        bits.len().wrapping_add(1) / 2
    } else {
        bits.len() / 2 + 1
    };
    let mut digits = Vec::new(alloc);
    let mut low = Lit(0);
    for place in 0..count {
        let first = place.wrapping_mul(2);
        let middle = bit_or(bits, first, above);
        let high = bit_or(bits, first.wrapping_add(1), above);
        digits.push(Digit { high, middle, low })?;
        low = high;
    }
    Ok(digits)
}

// The bits of the operand that is multiplied, with one bit more.
fn multiplied(alloc: Global, bits: &[Lit], is_signed: bool) -> Result<Vec<Lit>, Memory> {
    let mut all = Vec::new(alloc);
    all.extend_from_slice(bits)?;
    all.push(if is_signed { last(bits) } else { Lit(0) })?;
    Ok(all)
}

/// The highest bit.
pub(crate) fn last(bits: &[Lit]) -> Lit {
    match bits.last() {
        Some(lit) => *lit,
        None => Lit(0),
    }
}

fn bit_or(bits: &[Lit], place: usize, above: Lit) -> Lit {
    match bits.get(place) {
        Some(lit) => *lit,
        None => above,
    }
}

// The multiple by one digit, from a column on. A negative one is the complement, and 1 in the lowest column.
fn put_multiple(
    gates: &mut Gates<'_>,
    products: &mut Products,
    digit: Digit,
    low: usize,
    a: &[Lit],
    is_signed: bool,
) -> Result<(), Memory> {
    let (one, two) = digit.multiples(gates)?;
    let mut previous = Lit(0);
    let mut sign = digit.high;
    let bits = if is_signed {
        a.len().saturating_sub(1)
    } else {
        a.len()
    };
    for (i, this) in a.iter().enumerate() {
        let bit = bit_of(gates, (one, *this), (two, previous), digit.high)?;
        if i < bits {
            products.put(low.wrapping_add(i), bit)?;
        } else {
            // of signed operands the highest bit is the sign
            sign = bit;
        }
        previous = *this;
    }
    put_sign(products, low, low.wrapping_add(bits), sign)?;
    products.put(low, digit.high)
}

impl Digit {
    // Whether the digit is 1 or -1, and whether it is 2 or -2.
    fn multiples(&self, gates: &mut Gates<'_>) -> Result<(Lit, Lit), Memory> {
        let one = gates.xor(self.middle, self.low)?;
        let neither = gates.and(self.middle.not(), self.low.not())?;
        let both = gates.and(self.middle, self.low)?;
        let two = gates.choose(self.high, neither, both)?;
        Ok((one, two))
    }
}

// One of two bits, each where its condition is true, and its complement where the digit is negative.
fn bit_of(
    gates: &mut Gates<'_>,
    once: (Lit, Lit),
    twice: (Lit, Lit),
    negative: Lit,
) -> Result<Lit, Memory> {
    let first = gates.and(once.0, once.1)?;
    let second = gates.and(twice.0, twice.1)?;
    let part = gates.or(first, second)?;
    gates.xor(part, negative)
}

// The sign of a multiple, which counts negative at a column. What the constants of all are together is a multiple of 2
// to as many bits as both operands have.
fn put_sign(products: &mut Products, low: usize, column: usize, sign: Lit) -> Result<(), Memory> {
    let next = column.wrapping_add(1);
    if low == 0 {
        products.put(column, sign)?;
        products.put(next, sign)?;
        products.put(next.wrapping_add(1), sign.not())
    } else {
        products.put(column, sign.not())?;
        products.put(next, Lit(1))
    }
}

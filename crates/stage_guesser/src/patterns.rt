// Operands of several kinds, and addends.
ghost use Rattle.std.specs.Prelude.{◌<◌};

use crate::draws::Draws;
use crate::signature::WORDS;
use graph_core::{Memory, Numbers, Operands};
use std::alloc::Global;

/// As many numbers as signatures have values: the given ones, as far as they are at most half, and then drawn ones.
pub(crate) fn patterns(
    alloc: Global,
    operands: &Operands,
    given: &[Numbers],
) -> Result<Vec<Numbers>, Memory> {
    let mut draws = Draws::new();
    let mut patterns = Vec::new(alloc);
    for (i, numbers) in given.iter().enumerate() {
        if i < WORDS * 32 {
            patterns.push(*numbers)?;
        }
    }
    for _pattern in patterns.len()..WORDS * 64 {
        patterns.push(numbers(&mut draws, operands))?;
    }
    Ok(patterns)
}

// Two operands, and an addend where there is one.
fn numbers(draws: &mut Draws, operands: &Operands) -> Numbers {
    let (a, b) = pair(draws, operands.a_width(), operands.b_width());
    let c = if operands.c_literals().is_empty() {
        0
    } else {
        addend(draws)
    };
    Numbers { a, b, c }
}

// A number, of which an addend has the lowest bits.
fn addend(draws: &mut Draws) -> u128 {
    let high = u128::from(operand(draws, 64));
    let low = u128::from(operand(draws, 64));
    high << 64 | low
}

// Two numbers of at most so many bits: apart from one another, or such that a carry goes far.
fn pair(draws: &mut Draws, a_width: u32, b_width: u32) -> (u64, u64) {
    match draws.next() % 16 {
        0 => inverses(draws, a_width, b_width),
        1 => (great(draws, a_width), great(draws, b_width)),
        2 => (power_below(draws, a_width), operand(draws, b_width)),
        3 => (operand(draws, a_width), power_below(draws, b_width)),
        _ => (operand(draws, a_width), operand(draws, b_width)),
    }
}

// Two whose product's lowest bits are 1 or near it, or have one bit: as many as b has.
fn inverses(draws: &mut Draws, a_width: u32, b_width: u32) -> (u64, u64) {
    let first = operand(draws, a_width) | 1;
    let product = match draws.next() % 4 {
        0 => 1,
        1 => u64::MAX,
        2 => 3,
        _ => power(place(draws, b_width)),
    };
    let second = inverse(first).wrapping_mul(product) & ones(b_width);
    (first, second)
}

// The number by which an odd one is 1 modulo 2^64: each round doubles how many bits are right.
fn inverse(odd: u64) -> u64 {
    let mut inverse = odd;
    for _round in 0..6 {
        inverse = inverse.wrapping_mul(2u64.wrapping_sub(odd.wrapping_mul(inverse)));
    }
    inverse
}

// A number whose first bits are ones.
fn great(draws: &mut Draws, bits: u32) -> u64 {
    let number = draws.next() & ones(bits);
    ones(bits) & !(number >> (draws.next() % 16) as u32)
}

// A power of two, half of the time the greatest one.
fn power_below(draws: &mut Draws, bits: u32) -> u64 {
    if draws.next() % 2 == 0 {
        power(bits.wrapping_sub(1)) & ones(bits)
    } else {
        power(place(draws, bits))
    }
}

// A number of at most so many bits: any, one with few ones or few zeros, a run of ones, or one near a power of two.
fn operand(draws: &mut Draws, bits: u32) -> u64 {
    let number = match draws.next() % 8 {
        0 | 1 | 2 => draws.next(),
        3 => draws.next() & draws.next(),
        4 => draws.next() | draws.next(),
        5 => draws.next() | draws.next() | draws.next(),
        6 => run(draws, bits),
        _ => near_power(draws, bits),
    };
    number & ones(bits)
}

// A run of ones, sometimes with one bit changed.
fn run(draws: &mut Draws, bits: u32) -> u64 {
    let run = ones(place(draws, bits)) ^ ones(place(draws, bits) + 1);
    if draws.next() % 2 == 0 {
        run ^ power(place(draws, bits))
    } else {
        run
    }
}

// A power of two, and another one or one less than it changed in it.
fn near_power(draws: &mut Draws, bits: u32) -> u64 {
    let first = power(place(draws, bits));
    let second = power(place(draws, bits));
    first ^ second.wrapping_sub(draws.next() % 3)
}

// A place of a bit.
fn place(draws: &mut Draws, bits: u32) -> u32
    ensures { result < 64 }
{
    let place = draws.place();
    if bits == 0 || bits > 64 {
        0
    } else {
        place % bits
    }
}

// The number with so many ones.
fn ones(count: u32) -> u64 {
    if count < 64 {
        (1u64 << count).wrapping_sub(1)
    } else {
        u64::MAX
    }
}

// The power of two with this exponent.
fn power(place: u32) -> u64 {
    if place < 64 { 1u64 << place } else { 0 }
}

// Operands of several kinds, and addends.
ghost use Rattle.std.specs.Prelude.{◌<◌};

use crate::row::WORDS;
use graph_core::{Memory, Numbers, Operands};
use stage_guesser::Draws;
use std::alloc::Global;

/// As many numbers as rows have values, the same in each run.
pub(crate) fn patterns(alloc: Global, operands: &Operands) -> Result<Vec<Numbers>, Memory> {
    let mut draws = Draws::new();
    let mut patterns = Vec::new(alloc);
    for _pattern in 0..WORDS * 64 {
        let a = operand(&mut draws, operands.a_width());
        let b = operand(&mut draws, operands.b_width());
        let c = addend(&mut draws);
        patterns.push(Numbers { a, b, c })?;
    }
    Ok(patterns)
}

// A number, of which an addend has the lowest bits.
fn addend(draws: &mut Draws) -> u128 {
    let high = u128::from(operand(draws, 64));
    let low = u128::from(operand(draws, 64));
    high << 64 | low
}

// A number of at most so many bits: any, one with few ones or few zeros, or one that a carry goes far through.
fn operand(draws: &mut Draws, bits: u32) -> u64 {
    let number = match draws.next() % 12 {
        0 | 1 | 2 => draws.next(),
        3 => draws.next() & draws.next(),
        4 => draws.next() | draws.next(),
        5 => draws.next() | draws.next() | draws.next(),
        6 => run(draws, bits),
        7 => all_or_none(draws),
        8 => one_bit(draws, bits),
        9 => one_bit(draws, bits) | one_bit(draws, bits),
        10 => draws.next() & draws.next() & draws.next(),
        _ => near_power(draws, bits),
    };
    number & ones(bits)
}

// A run of ones, sometimes with one bit changed.
fn run(draws: &mut Draws, bits: u32) -> u64 {
    let run = ones(place(draws, bits)) ^ ones(place(draws, bits) + 1);
    if draws.next() % 2 == 0 {
        run ^ one_bit(draws, bits)
    } else {
        run
    }
}

fn all_or_none(draws: &mut Draws) -> u64 {
    if draws.next() % 2 == 0 { 0 } else { u64::MAX }
}

fn one_bit(draws: &mut Draws, bits: u32) -> u64 {
    let place = place(draws, bits);
    1u64 << place
}

// A power of two, and another one or one less than it changed in it.
fn near_power(draws: &mut Draws, bits: u32) -> u64 {
    let first = one_bit(draws, bits);
    let second = one_bit(draws, bits);
    first ^ second.wrapping_sub(draws.next() % 3)
}

// A place of a bit.
fn place(draws: &mut Draws, bits: u32) -> u32
    ensures { result < 64 }
{
    let place = (draws.next() % 64) as u32;
    if bits == 0 || bits > 64 {
        0
    } else {
        place % bits
    }
}

// The number with so many ones.
fn ones(count: u32) -> u64 {
    if count < 64 {
        (1u64 << count).wrapping_sub(1)
    } else {
        u64::MAX
    }
}

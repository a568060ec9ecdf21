// reference_guesser: what a guessed reference gives on all operands.
ghost use Rattle.std.specs.Prelude.{◌≤◌};

use aiger_reader::graph_of_text;
use graph_core::{Claim, Graph, Lit, Numbers, Operands, Order, Sign, Widths};
use graph_maker::{Adder, Kind, make};
use reference_guesser::{Reference, guess};
use std::alloc::Global;
use std::test::Fail;

// The value of a literal, where those of all variables so far are told.
fn value(values: &[bool], lit: Lit) -> bool {
    match values.get(lit.var() as usize) {
        Some(value) => *value != lit.negated(),
        None => false,
    }
}

// Sets the values of a word's bits.
fn set(values: &mut [bool], lits: &[Lit], number: u64) {
    for (i, lit) in lits.iter().enumerate() {
        if let Some(place) = values.get_mut(lit.var() as usize) {
            *place = i < 64 && (number >> i as u32) % 2 == 1;
        }
    }
}

// The number that a reference's outputs are.
fn given(
    alloc: Global,
    graph: &Graph,
    operands: &Operands,
    reference: &Reference,
    numbers: &Numbers,
) -> Result<u64, Fail> {
    let mut values = vec![in alloc; false; graph.max() as usize + 1]?;
    set(&mut values, operands.a_literals(), numbers.a);
    set(&mut values, operands.b_literals(), numbers.b);
    set(
        &mut values,
        operands.c_literals(),
        (numbers.c % (1 << 64)) as u64,
    );
    for (x, y) in reference.beside.gates.as_slice() {
        let both = value(&values, *x) && value(&values, *y);
        values.push(both)?;
    }
    let mut number = 0;
    for (k, lit) in reference.beside.outputs.as_slice() {
        if *k < 64 && value(&values, *lit) {
            number |= 1u64 << *k;
        }
    }
    Ok(number)
}

// An operand of so many bits as its bits count.
fn counted(number: u64, bits: u32, sign: Sign) -> u64 {
    if sign == Sign::Signed && 0 < bits && bits < 64 && (number >> (bits - 1)) % 2 == 1 {
        number.wrapping_sub(1 << bits)
    } else {
        number
    }
}

// Whether the reference of a graph does what is claimed, on all operands of so many bits and addends of so many.
fn does(
    alloc: Global,
    graph: &Graph,
    operands: &Operands,
    bits: u32,
    more: u32,
) -> Result<bool, Fail>
    requires { bits ≤ 5 × more ≤ 2 }
{
    let Some(reference) = guess(alloc, graph, operands)? else {
        return Ok(false);
    };
    let mask = (1u64 << graph.outputs().min(10)) - 1;
    for a in 0..1u64 << bits {
        for b in 0..1u64 << bits {
            for c in 0..1u64 << more {
                let numbers = Numbers { a, b, c: c as u128 };
                let x = counted(a, bits, operands.sign());
                let y = counted(b, bits, operands.sign());
                let due = x.wrapping_mul(y).wrapping_add(c) & mask;
                if given(alloc, graph, operands, &reference, &numbers)? != due {
                    return Ok(false);
                }
            }
        }
    }
    Ok(true)
}

// Whether those of a made multiplier do, for operands of either kind.
fn multiplies(alloc: Global, kind: Kind, bits: u32, adder: Adder) -> Result<bool, Fail>
    requires { 1 ≤ bits × bits ≤ 5 }
{
    let graph = make(alloc, kind, bits, adder)?;
    let unsigned = Operands::of(alloc, &graph, Order::Separate)?;
    let signed = Operands::signed(alloc, &graph, Order::Separate)?;
    Ok(does(alloc, &graph, &unsigned, bits, 0)? && does(alloc, &graph, &signed, bits, 0)?)
}

const TREES: [(&str, Kind, u32, Adder); 5] = [
    ("one product", Kind::Array, 1, Adder::Ripple),
    ("an array", Kind::Array, 4, Adder::Ripple),
    ("a tree", Kind::Dadda, 5, Adder::Ripple),
    ("a tree and Kogge-Stone", Kind::Dadda, 5, Adder::Kogge),
    ("an array and Sklansky", Kind::Array, 5, Adder::Sklansky),
];

#[test]
fn references_multiply(rt: HostRuntime) -> Result<(), Fail> {
    for &(shows, kind, bits, adder) in &TREES {
        assert!(rt; 1 <= bits && bits <= 5);
        assert!(rt; multiplies(rt.alloc(), kind, bits, adder)?, "{shows}");
    }
    Ok(())
}

// Operands of one bit, an addend of two, and outputs that are not their sum.
const NO_SUM: &[u8] = b"aag 5 4 0 2 1\n2\n4\n6\n8\n10\n0\n10 4 2\n";

const SUM: Claim = Claim {
    order: Order::Separate,
    sign: Sign::Unsigned,
    widths: Widths::Equal { add: true },
};

#[test]
fn references_add(rt: HostRuntime) -> Result<(), Fail> {
    match graph_of_text(rt.alloc(), SUM.profile(), NO_SUM) {
        Ok(graph) => {
            let operands = Operands::under(rt.alloc(), &graph, SUM)?;
            assert!(rt; does(rt.alloc(), &graph, &operands, 1, 2)?);
        }
        Err(_) => assert!(rt; false, "the text is a graph's"),
    }
    Ok(())
}

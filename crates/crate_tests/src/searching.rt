// operand_search and stage_guesser: what is found by evaluating a graph.
ghost use Rattle.std.specs.Prelude.{◌≤◌};
ghost use Rattle.graph_core.specs.Aiger.Sizes.{IsSizedAs};
ghost use Rattle.graph_core.specs.Graph.Operands.{profile_of};

use aiger_reader::graph_of_text;
use graph_core::{Claim, Graph, Numbers, Operands, Order, Sign, Widths};
use graph_maker::{Adder, Kind, make};
use operand_search::{least_seen, least_within, most_ones_within};
use stage_guesser::candidate;
use std::alloc::Global;
use std::test::Fail;

const PRODUCT: Claim = Claim {
    order: Order::Separate,
    sign: Sign::Unsigned,
    widths: Widths::Equal { add: false },
};

const SIGNED: Claim = Claim {
    order: Order::Separate,
    sign: Sign::Signed,
    widths: Widths::Equal { add: false },
};

const TWO_BY_ONE: Claim = Claim {
    order: Order::Separate,
    sign: Sign::Unsigned,
    widths: Widths::Given {
        a: 2,
        b: 1,
        add: false,
    },
};

const SUM: Claim = Claim {
    order: Order::Separate,
    sign: Sign::Unsigned,
    widths: Widths::Equal { add: true },
};

// The least difference of the graph of a text, with at most so many ones, by both searches; None where one fails.
fn least(
    alloc: Global,
    text: &[u8],
    claim: Claim,
    most_ones: u32,
) -> Option<(Option<Numbers>, Option<Numbers>)> {
    match graph_of_text(alloc, claim.profile(), text) {
        Ok(graph) => least_of(alloc, &graph, claim, most_ones),
        Err(_) => None,
    }
}

fn least_of(
    alloc: Global,
    graph: &Graph,
    claim: Claim,
    most_ones: u32,
) -> Option<(Option<Numbers>, Option<Numbers>)>
    requires { IsSizedAs (profile_of claim.widths) graph.now }
{
    let operands = Operands::under(alloc, graph, claim).ok()?;
    let within = least_within(alloc, graph, &operands, most_ones).ok()?;
    let seen = least_seen(alloc, graph, &operands, most_ones).ok()?;
    Some((within, seen))
}

// An array of two bits.
const TWO_BITS: &[u8] =
    b"aag 14 4 0 4 10\n2\n4\n6\n8\n10\n22\n28\n24\n10 6 2\n12 6 4\n14 8 2\n16 8 4\n18 14 12\n20 15 13\n22 21 19\n24 18 16\n26 19 17\n28 27 25\n";

const DIFFERENCES: [(&str, &[u8], Claim, u32, Option<Numbers>); 10] = [
    (
        "a multiplier of one bit",
        b"aag 3 2 0 1 1\n2\n4\n6\n6 4 2\n",
        PRODUCT,
        2,
        None,
    ),
    (
        "an output that is 0",
        b"aag 3 2 0 1 1\n2\n4\n0\n6 4 2\n",
        PRODUCT,
        2,
        Some(Numbers { a: 1, b: 1, c: 0 }),
    ),
    (
        "one bit is allowed",
        b"aag 3 2 0 1 1\n2\n4\n0\n6 4 2\n",
        PRODUCT,
        1,
        None,
    ),
    (
        "an or",
        b"aag 3 2 0 1 1\n2\n4\n7\n6 5 3\n",
        PRODUCT,
        2,
        Some(Numbers { a: 1, b: 0, c: 0 }),
    ),
    ("operands without a sign", TWO_BITS, PRODUCT, 4, None),
    (
        "signed ones",
        TWO_BITS,
        SIGNED,
        4,
        Some(Numbers { a: 1, b: 2, c: 0 }),
    ),
    (
        "an addend that is left out",
        b"aag 5 4 0 1 1\n2\n4\n6\n8\n10\n10 4 2\n",
        SUM,
        4,
        Some(Numbers { a: 0, b: 0, c: 1 }),
    ),
    (
        "a lowest bit with its addend",
        b"aag 8 4 0 1 4\n2\n4\n6\n8\n16\n10 4 2\n12 10 6\n14 11 7\n16 15 13\n",
        SUM,
        4,
        None,
    ),
    (
        "two bits times one",
        b"aag 5 3 0 3 2\n2\n4\n6\n8\n10\n0\n8 6 2\n10 6 4\n",
        TWO_BY_ONE,
        3,
        None,
    ),
    (
        "two bits times one without the second",
        b"aag 5 3 0 3 2\n2\n4\n6\n8\n0\n0\n8 6 2\n10 6 4\n",
        TWO_BY_ONE,
        3,
        Some(Numbers { a: 2, b: 1, c: 0 }),
    ),
];

#[test]
fn differences_are_found(rt: HostRuntime) {
    for &(shows, text, claim, most_ones, due) in &DIFFERENCES {
        assert!(rt;
            least(rt.alloc(), text, claim, most_ones) == Some((due, due)),
            "{shows}"
        );
    }
}

// Where the adder begins that is found in a made multiplier, and how many pairs it has.
fn found(alloc: Global, kind: Kind, bits: u32, adder: Adder) -> Result<Option<(u32, usize)>, Fail>
    requires { 1 ≤ bits × bits ≤ 64 }
{
    let graph = make(alloc, kind, bits, adder)?;
    let operands = Operands::of(alloc, &graph, Order::Separate)?;
    let cut = candidate(alloc, &graph, &operands, &[])?;
    Ok(cut.map(|cut| (cut.lo, cut.pairs.as_slice().len())))
}

const ADDERS: [(&str, Kind, u32, Adder, Option<(u32, usize)>); 4] = [
    ("no carry", Kind::Array, 1, Adder::Ripple, None),
    ("ripple", Kind::Array, 4, Adder::Ripple, Some((2, 6))),
    ("Kogge-Stone", Kind::Dadda, 4, Adder::Kogge, Some((1, 6))),
    ("Sklansky", Kind::Dadda, 5, Adder::Sklansky, Some((1, 8))),
];

#[test]
fn last_adders_are_found(rt: HostRuntime) -> Result<(), Fail> {
    for &(shows, kind, bits, adder, due) in &ADDERS {
        assert!(rt; 1 <= bits && bits <= 64);
        assert!(rt; found(rt.alloc(), kind, bits, adder)? == due, "{shows}");
    }
    Ok(())
}

#[test]
fn work_is_enough_for_some_ones(rt: HostRuntime) -> Result<(), Fail> {
    let graph = make(rt.alloc(), Kind::Array, 8, Adder::Ripple)?;
    assert!(rt; most_ones_within(&graph, 0) == 2);
    assert!(rt; most_ones_within(&graph, 1 << 24) == 16);
    Ok(())
}

// graph_maker: the multipliers of one and two bits, and small ones of two widths, as they are written.
use aiger_reader::write_ascii;
use graph_core::Graph;
use graph_maker::{Adder, Kind, make, make_of};
use mv_desk::{Desk, MemoryDesk, Slot};
use std::alloc::Global;
use std::test::Fail;

const ONE_BIT: &[u8] = b"aag 3 2 0 2 1\n2\n4\n6\n0\n6 4 2\n";

const TWO_BIT: &[u8] = b"aag 14 4 0 4 10\n2\n4\n6\n8\n10\n22\n28\n24\n\
    10 6 2\n12 6 4\n14 8 2\n16 8 4\n18 14 12\n20 15 13\n22 21 19\n24 18 16\n26 19 17\n28 27 25\n";

// One bit by two, where nothing has to be added, and two bits by one.
const ONE_BY_TWO: &[u8] = b"aag 5 3 0 3 2\n2\n4\n6\n8\n10\n0\n8 4 2\n10 6 2\n";

const TWO_BY_ONE: &[u8] = b"aag 5 3 0 3 2\n2\n4\n6\n8\n10\n0\n8 6 2\n10 6 4\n";

const ARRAY_OF_TWO_BY_THREE: &[u8] = b"aag 27 5 0 5 22\n2\n4\n6\n8\n10\n12\n28\n40\n52\n55\n\
    12 6 2\n14 6 4\n16 8 2\n18 8 4\n20 10 2\n22 10 4\n\
    24 16 14\n26 17 15\n28 27 25\n30 24 18\n32 25 19\n34 33 31\n\
    36 34 20\n38 35 21\n40 39 37\n42 30 22\n44 31 23\n46 45 43\n48 46 36\n50 47 37\n52 51 49\n54 49 43\n";

const TREE_OF_TWO_BY_THREE: &[u8] = b"aag 24 5 0 5 19\n2\n4\n6\n8\n10\n12\n28\n40\n48\n44\n\
    12 6 2\n14 6 4\n16 8 2\n18 8 4\n20 10 2\n22 10 4\n\
    24 16 14\n26 17 15\n28 27 25\n30 20 18\n32 21 19\n34 33 31\n36 34 24\n38 35 25\n40 39 37\n42 37 31\n\
    44 43 22\n46 42 23\n48 47 45\n";

// Writes a graph to a new file.
fn write_new<D: Desk>(desk: &mut D, graph: &Graph) -> Option<()> {
    desk.create_file(Slot::Graph, "graph").ok()?;
    write_ascii(desk, Slot::Graph, graph).ok()
}

// Whether a graph is written as this text.
fn is_written(alloc: Global, graph: &Graph, text: &[u8]) -> bool {
    let mut desk = MemoryDesk::new(alloc, Vec::new(alloc), Vec::new(alloc), Vec::new(alloc));
    write_new(&mut desk, graph).is_some() && desk.out(Slot::Graph) == text
}

const MADE: [(Kind, u32, &[u8]); 4] = [
    (Kind::Array, 1, ONE_BIT),
    (Kind::Dadda, 1, ONE_BIT),
    (Kind::Array, 2, TWO_BIT),
    (Kind::Dadda, 2, TWO_BIT),
];

#[test]
fn small_multipliers_are_made_by_the_rule(rt: HostRuntime) -> Result<(), Fail> {
    for &(kind, bits, text) in &MADE {
        assert!(rt; 1 <= bits && bits <= 64);
        let graph = make(rt.alloc(), kind, bits, Adder::Ripple)?;
        assert!(rt; is_written(rt.alloc(), &graph, text), "{bits}");
    }
    Ok(())
}

const MADE_OF_WIDTHS: [(Kind, u32, u32, &[u8]); 6] = [
    (Kind::Array, 1, 2, ONE_BY_TWO),
    (Kind::Dadda, 1, 2, ONE_BY_TWO),
    (Kind::Array, 2, 1, TWO_BY_ONE),
    (Kind::Dadda, 2, 1, TWO_BY_ONE),
    (Kind::Array, 2, 3, ARRAY_OF_TWO_BY_THREE),
    (Kind::Dadda, 2, 3, TREE_OF_TWO_BY_THREE),
];

#[test]
fn small_multipliers_of_two_widths_are_made_by_the_rule(rt: HostRuntime) -> Result<(), Fail> {
    for &(kind, a, b, text) in &MADE_OF_WIDTHS {
        assert!(rt; 1 <= a && a <= 64 && 1 <= b && b <= 64);
        let graph = make_of(rt.alloc(), kind, a, b, Adder::Ripple)?;
        assert!(rt; is_written(rt.alloc(), &graph, text), "{a} {b}");
    }
    Ok(())
}

// mv_desk: desks that no test of the program runs over.
use mv_desk::{Desk, HonestDesk, RealDesk, Slot, read_front, write_all};
use std::alloc::Global;

const TEXT: &[u8] = b"pac 1\n";

// What is read of a new file that has this text, under its length as the limit.
fn written_and_read<D: Desk>(alloc: Global, desk: &mut D) -> Option<Vec<u8>> {
    desk.create_file(Slot::Other, "mv_desk_test_file").ok()?;
    write_all(desk, Slot::Other, TEXT).ok()?;
    desk.open_file(Slot::Graph, "mv_desk_test_file").ok()?;
    read_front(alloc, desk, Slot::Graph, 6).ok()
}

fn keeps_text<D: Desk>(alloc: Global, desk: &mut D) -> bool {
    match written_and_read(alloc, desk) {
        Some(bytes) => bytes.as_slice() == TEXT,
        None => false,
    }
}

#[test]
fn what_is_written_is_read_again(rt: HostRuntime) {
    assert!(rt; keeps_text(rt.alloc(), &mut HonestDesk::new(rt.alloc())));
    assert!(rt; keeps_text(rt.alloc(), &mut RealDesk::new(&rt)));
}

// Gates that nothing reads any more, tops of exclusive ors after the others.
ghost use Rattle.std.specs.Prelude.{IfOk};
ghost use Rattle.std.specs.List.{All, Contains};

use crate::adders::gates_alone;
use crate::arrangement::Arrangement;
use crate::arranging::by_levels;
use crate::grouping::{gate_of, grouped};
use graph_core::{Gate, Lit, Memory};
use ripple_graft::Extended;
use std::alloc::Global;
use std::collections::BinaryHeap;

/// The gates alone, each after those that read it. Of those whose readers all come before, first one that isn't the
/// top of an exclusive or, by greater level; where there is none, the top with the fewest tops between an output and
/// it.
pub(crate) fn sums_last(alloc: Global, extended: &Extended<'_>) -> Result<Arrangement, Memory>
    ensures { IfOk result (λ a. All (Contains extended.now.gates) a.gates) }
{
    let levels = by_levels(alloc, extended)?;
    let mut ready = Ready::new(alloc, extended, &levels)?;
    ready.push_unread(extended)?;
    let order = ready.take_all(alloc, extended)?;
    let gates = gates_alone(alloc, extended)?;
    grouped(alloc, extended, &gates, &order)
}

/// Gates that can go, and what is known of each gate.
#[derive(Drop)]
struct Ready {
    /// by variable: its gate's place in the list
    places: Vec<usize>,
    /// by variable: how far its gate stands after the one of greatest level
    ranks: Vec<u32>,
    /// by variable: whether its gate is the top of an exclusive or
    tops: Vec<bool>,
    /// by variable: the most tops on a way from an output down to it
    depths: Vec<u32>,
    /// by variable: how many operands of gates that aren't taken are its own
    readers: Vec<u64>,
    /// the gates that can go, the next one greatest: not a top, how few tops are above it, by level, its variable
    heap: BinaryHeap<(bool, u32, u32, u32)>,
}

impl Ready {
    // No gate is ready yet.
    fn new(alloc: Global, extended: &Extended<'_>, levels: &Arrangement) -> Result<Ready, Memory> {
        let room = extended.max() as usize + 1;
        let mut ready = Ready {
            places: vec![in alloc; usize::MAX; room]?,
            ranks: vec![in alloc; 0u32; room]?,
            tops: vec![in alloc; false; room]?,
            depths: vec![in alloc; 0u32; room]?,
            readers: vec![in alloc; 0u64; room]?,
            heap: BinaryHeap::new(alloc),
        };
        for (place, gate) in extended.gates().iter().enumerate() {
            put(&mut ready.places, gate.v, place);
        }
        let mut rank = u32::MAX;
        for gate in levels.gates.iter() {
            put(&mut ready.ranks, gate.v, rank);
            rank = rank.saturating_sub(1);
            ready.meet(extended, *gate);
        }
        Ok(ready)
    }

    // Counts a gate as a reader. All that read it were counted before.
    fn meet(&mut self, extended: &Extended<'_>, gate: Gate) {
        let top = is_top(extended, gate);
        put(&mut self.tops, gate.v, top);
        let above = at(&self.depths, gate.v);
        let depth = if top { above.saturating_add(1) } else { above };
        self.read(gate.left, depth);
        self.read(gate.right, depth);
    }

    // One more reader of a literal's variable, with so many tops down to there.
    fn read(&mut self, lit: Lit, depth: u32) {
        if let Some(known) = self.depths.get_mut(lit.var() as usize) {
            *known = depth.max(*known);
        }
        if let Some(readers) = self.readers.get_mut(lit.var() as usize) {
            *readers = readers.saturating_add(1);
        }
    }

    // The gates that no gate reads are ready.
    fn push_unread(&mut self, extended: &Extended<'_>) -> Result<(), Memory> {
        for gate in extended.gates() {
            if self.readers.get(gate.v as usize) == Some(&0) {
                self.push(gate.v)?;
            }
        }
        Ok(())
    }

    // One more gate that is ready.
    fn push(&mut self, v: u32) -> Result<(), Memory> {
        let top = self.tops.get(v as usize) == Some(&true);
        let few = if top {
            u32::MAX - at(&self.depths, v)
        } else {
            0
        };
        self.heap.push((!top, few, at(&self.ranks, v), v))?;
        Ok(())
    }

    // The places of the gates, each after those that read it.
    fn take_all(self, alloc: Global, extended: &Extended<'_>) -> Result<Vec<usize>, Memory> {
        let mut ready = self;
        let mut order = Vec::new(alloc);
        for _ in 0..extended.gates().len() {
            match ready.heap.pop() {
                None => return Ok(order),
                Some((_, _, _, v)) => {
                    if let Some(place) = ready.places.get(v as usize) {
                        order.push(*place)?;
                    }
                    ready.take(extended, v)?;
                }
            }
        }
        Ok(order)
    }

    // A gate reads its operands no more.
    fn take(&mut self, extended: &Extended<'_>, v: u32) -> Result<(), Memory> {
        if let Some(gate) = gate_of(extended, v) {
            self.read_less(extended, gate.left)?;
            self.read_less(extended, gate.right)?;
        }
        Ok(())
    }

    // One reader less, and where none is left the gate is ready.
    fn read_less(&mut self, extended: &Extended<'_>, lit: Lit) -> Result<(), Memory> {
        let v = lit.var();
        if let Some(readers) = self.readers.get_mut(v as usize) {
            *readers = readers.saturating_sub(1);
            if *readers == 0 && gate_of(extended, v).is_some() {
                return self.push(v);
            }
        }
        Ok(())
    }
}

// Whether a gate is the AND of the negations of two gates, the AND of two literals and that of their negations.
fn is_top(extended: &Extended<'_>, gate: Gate) -> bool {
    match (below(extended, gate.left), below(extended, gate.right)) {
        (Some(p), Some(q)) => {
            let (x, y) = (p.left.not(), p.right.not());
            (q.left.0 == x.0 && q.right.0 == y.0) || (q.left.0 == y.0 && q.right.0 == x.0)
        }
        _ => false,
    }
}

// The gate whose negation a literal is.
fn below(extended: &Extended<'_>, lit: Lit) -> Option<Gate> {
    if lit.negated() {
        gate_of(extended, lit.var())
    } else {
        None
    }
}

// The number at a place, 0 past the end.
fn at(table: &[u32], v: u32) -> u32 {
    match table.get(v as usize) {
        Some(number) => *number,
        None => 0,
    }
}

// Another value at a place, if there is such a place.
fn put<T: Copy>(table: &mut [T], v: u32, value: T) {
    if let Some(place) = table.get_mut(v as usize) {
        *place = value;
    }
}

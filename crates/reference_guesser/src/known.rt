// Which rows a graph's signals have.
use crate::row::Row;
use graph_core::{Graph, Memory};
use std::alloc::Global;

// How many words marks have.
const MARK_WORDS: usize = 1 << 16;

/// The rows of a graph's gates, each with its negation's.
#[derive(Drop)]
pub(crate) struct Known {
    /// rising
    keys: Vec<u64>,
    /// those of the keys
    marks: Marks,
    /// those of the heads' keys
    heads: Marks,
}

impl Known {
    /// Of a graph's gates, whose rows are told by variable.
    pub(crate) fn new(alloc: Global, graph: &Graph, rows: &[Row]) -> Result<Known, Memory> {
        let mut known = Known {
            keys: Vec::new(alloc),
            marks: Marks::new(alloc)?,
            heads: Marks::new(alloc)?,
        };
        for gate in graph.gates() {
            if let Some(row) = rows.get(gate.v as usize) {
                known.put(row)?;
            }
        }
        known.keys.sort_unstable();
        Ok(known)
    }

    fn put(&mut self, row: &Row) -> Result<(), Memory> {
        let key = row.key();
        self.marks.put(key);
        self.heads.put(row.head().key());
        self.keys.push(key)?;
        Ok(())
    }

    /// Whether a gate has a row with this key.
    pub(crate) fn has(&self, key: u64) -> bool {
        self.marks.has(key) && self.keys.binary_search(&key).is_ok()
    }

    /// Whether a gate may have a row with this key.
    pub(crate) fn may_have(&self, key: u64) -> bool {
        self.marks.has(key)
    }

    /// Whether a gate may have a row with a head of this key.
    pub(crate) fn may_begin(&self, head: u64) -> bool {
        self.heads.has(head)
    }

    /// Whether a gate has the row of a conjunction.
    pub(crate) fn has_and(&self, x: &Row, y: &Row) -> bool {
        self.may_begin(x.head().and(&y.head()).key()) && self.has(x.and(y).key())
    }

    /// Whether a gate has the row of a full adder's carry.
    pub(crate) fn has_majority(&self, x: &Row, y: &Row, z: &Row) -> bool {
        let head = x.head().majority(&y.head(), &z.head());
        self.may_begin(head.key()) && self.has(x.majority(y, z).key())
    }
}

// A set of numbers, and of others that it takes for these.
#[derive(Drop)]
struct Marks {
    words: Vec<u64>,
}

impl Marks {
    fn new(alloc: Global) -> Result<Marks, Memory> {
        Ok(Marks {
            words: vec![in alloc; 0u64; MARK_WORDS]?,
        })
    }

    fn put(&mut self, number: u64) {
        let place = place_of(number);
        if let Some(word) = self.words.get_mut((place / 64) as usize) {
            *word |= 1u64 << (place % 64) as u32;
        }
    }

    fn has(&self, number: u64) -> bool {
        let place = place_of(number);
        match self.words.get((place / 64) as usize) {
            Some(word) => (*word >> (place % 64) as u32) % 2 == 1,
            None => false,
        }
    }
}

// A number's place in the marks, of which there are 2^22.
fn place_of(number: u64) -> u64 {
    number.wrapping_mul(0x9e37_79b9_7f4a_7c15) >> 42
}

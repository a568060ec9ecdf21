// Gates that wait: products, which stand in monomials in place of many variables.
use graph_core::{Gate, Memory};
use std::alloc::Global;
use std::mem;

/// Gates whose turn came, and that wait until the turn of a variable that one of them reads.
#[derive(Drop)]
pub(crate) struct Waiting {
    alloc: Global,
    /// by variable: whether a gate that waits reads it
    read: Vec<bool>,
    gates: Vec<Gate>,
}

impl Waiting {
    /// No gate waits.
    pub(crate) fn new(alloc: Global, max: u32) -> Result<Waiting, Memory> {
        Ok(Waiting {
            alloc,
            read: vec![in alloc; false; max as usize + 1]?,
            gates: Vec::new(alloc),
        })
    }

    /// One more gate waits.
    pub(crate) fn push(&mut self, gate: Gate) -> Result<(), Memory> {
        self.gates.push(gate)?;
        put(&mut self.read, gate.left.var(), true);
        put(&mut self.read, gate.right.var(), true);
        Ok(())
    }

    /// Whether a gate that waits reads a variable.
    pub(crate) fn reads(&self, v: u32) -> bool {
        self.read.get(v as usize) == Some(&true)
    }

    /// The gates that waited, in the order of their turns.
    pub(crate) fn end(&mut self) -> Vec<Gate> {
        let gates = mem::replace(&mut self.gates, Vec::new(self.alloc));
        for gate in gates.iter() {
            put(&mut self.read, gate.left.var(), false);
            put(&mut self.read, gate.right.var(), false);
        }
        gates
    }
}

fn put(table: &mut [bool], v: u32, value: bool) {
    if let Some(place) = table.get_mut(v as usize) {
        *place = value;
    }
}

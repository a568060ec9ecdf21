// Variables near two gates.
use crate::rows::Rows;
use graph_core::{Gate, Memory};
use std::alloc::Global;

// How many variables are gathered.
const MANY: usize = 48;

/// The variables below some gates, the nearest first, a few of them. No answer depends on it.
#[derive(Drop)]
pub(crate) struct Cones {
    near: Vec<u32>,
}

impl Cones {
    pub(crate) fn new(alloc: Global) -> Result<Cones, Memory> {
        Ok(Cones {
            near: Vec::with_capacity(alloc, MANY)?,
        })
    }

    /// The variables that two gates and those below them read, the nearest last.
    pub(crate) fn near(
        &mut self,
        rows: &Rows,
        gates: &[Gate],
        one: u32,
        other: u32,
    ) -> Result<&[u32], Memory> {
        self.near.clear();
        self.near.push(one)?;
        self.near.push(other)?;
        for next in 0..MANY {
            let gate = match self.near.get(next) {
                Some(variable) => rows.gate(gates, *variable),
                None => None,
            };
            if let Some(gate) = gate {
                self.read(gate.left.var())?;
                self.read(gate.right.var())?;
            }
        }
        self.near.as_mut_slice().reverse();
        Ok(self.near.as_slice())
    }

    // Gathers a variable, unless it is there or there are many.
    fn read(&mut self, variable: u32) -> Result<(), Memory> {
        if self.near.len() < MANY && !self.near.as_slice().contains(&variable) {
            self.near.push(variable)?;
        }
        Ok(())
    }
}

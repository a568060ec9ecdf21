// Rows of tables, of which a variable that no gate reads takes none.
use graph_core::{Gate, Memory};
use std::alloc::Global;

/// By variable its row in tables of signals: 0 for the constant and for what no gate has or reads, then the gates as
/// they are listed, then the inputs that they read. No answer depends on it.
#[derive(Drop)]
pub(crate) struct Rows {
    rows: Vec<u32>,
    count: u32,
}

impl Rows {
    /// The rows of gates of variables up to the greatest one.
    pub(crate) fn new(alloc: Global, max: u32, gates: &[Gate]) -> Result<Rows, Memory> {
        let mut all = Rows {
            rows: vec![in alloc; 0; max as usize + 1]?,
            count: 1,
        };
        for gate in gates {
            all.enter(gate.v);
        }
        for gate in gates {
            all.enter(gate.left.var());
            all.enter(gate.right.var());
        }
        Ok(all)
    }

    /// How many rows there are.
    pub(crate) fn count(&self) -> usize {
        self.count as usize
    }

    /// The row of a variable.
    pub(crate) fn of(&self, variable: u32) -> usize {
        match self.rows.get(variable as usize) {
            Some(row) => *row as usize,
            None => 0,
        }
    }

    /// The gate of a variable, if it has one.
    pub(crate) fn gate(&self, gates: &[Gate], variable: u32) -> Option<Gate> {
        match gates.get(self.of(variable).wrapping_sub(1)) {
            Some(gate) => Some(*gate),
            None => None,
        }
    }

    // One row more, unless the variable has one or is the constant.
    fn enter(&mut self, variable: u32) {
        if variable == 0 {
            return;
        }
        if let Some(row) = self.rows.get_mut(variable as usize) {
            if *row == 0 {
                *row = self.count;
                self.count = self.count.saturating_add(1);
            }
        }
    }
}

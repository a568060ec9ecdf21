// The gates of a graph by their operands, and by their rows.
use crate::row::Row;
use crate::values::value;
use graph_core::{Graph, Lit, Memory};
use indexmap::IndexMap;
use std::alloc::Global;

/// A graph's gates. Of several with one row the first one stands for all, unless the row is that of a constant.
#[derive(Drop)]
pub(crate) struct Signals<'a> {
    /// by variable
    pub(crate) rows: &'a [Row],
    by_operands: IndexMap<(u32, u32), Lit>,
    by_row: IndexMap<u64, Lit>,
}

impl<'a> Signals<'a> {
    /// Those of a graph, whose rows are told by variable.
    pub(crate) fn new(
        alloc: Global,
        graph: &Graph,
        rows: &'a [Row],
    ) -> Result<Signals<'a>, Memory> {
        let mut signals = Signals {
            rows,
            by_operands: IndexMap::new(alloc),
            by_row: IndexMap::new(alloc),
        };
        for gate in graph.schedule() {
            let own = Lit(gate.v.wrapping_mul(2));
            signals.put(own, gate.left, gate.right)?;
        }
        Ok(signals)
    }

    fn put(&mut self, own: Lit, left: Lit, right: Lit) -> Result<(), Memory> {
        let key = value(self.rows, own).key();
        if self.by_row.get(&key).is_none() {
            self.by_row.insert(key, own)?;
        }
        let place = self.place(left, right);
        if self.by_operands.get(&place).is_none() {
            self.by_operands.insert(place, own)?;
        }
        Ok(())
    }

    /// The literal with a row, if there is one.
    pub(crate) fn with_row(&self, row: &Row) -> Option<Lit> {
        let lit = *self.by_row.get(&row.key())?;
        if value(self.rows, lit).is(row) {
            Some(lit)
        } else if value(self.rows, lit.not()).is(row) {
            Some(lit.not())
        } else {
            None
        }
    }

    /// The conjunction of two literals, if some gate is that.
    pub(crate) fn and(&self, x: Lit, y: Lit) -> Option<Lit> {
        if x.0 == 0 || y.0 == 0 {
            return Some(Lit(0));
        }
        if x.0 == 1 {
            return Some(y);
        }
        if y.0 == 1 {
            return Some(x);
        }
        match self.by_operands.get(&self.place(x, y)) {
            Some(lit) => Some(*lit),
            None => self.changing(&value(self.rows, x).and(&value(self.rows, y))),
        }
    }

    /// The disjunction of two literals, if some gate is its negation.
    pub(crate) fn or(&self, x: Lit, y: Lit) -> Option<Lit> {
        let neither = self.and(x.not(), y.not())?;
        Some(neither.not())
    }

    // The literal with a row, unless that is a constant's.
    fn changing(&self, row: &Row) -> Option<Lit> {
        if row.key() == 0 {
            None
        } else {
            self.with_row(row)
        }
    }

    fn place(&self, x: Lit, y: Lit) -> (u32, u32) {
        let (x, y) = (self.first(x), self.first(y));
        (x.0.min(y.0), x.0.max(y.0))
    }

    // The literal that stands for those with its row.
    fn first(&self, lit: Lit) -> Lit {
        self.changing(&value(self.rows, lit)).unwrap_or(lit)
    }
}

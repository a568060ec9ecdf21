// Gates beside a graph, each once.
use crate::row::Row;
use crate::values::value;
use graph_core::{Lit, Memory};
use indexmap::IndexMap;
use std::alloc::Global;

/// Gates that are numbered on from a graph's greatest variable, with their rows.
#[derive(Drop)]
pub(crate) struct Gates<'a> {
    /// by variable of the graph
    base: &'a [Row],
    pub(crate) pairs: Vec<(Lit, Lit)>,
    /// by gate
    pub(crate) rows: Vec<Row>,
    /// by the literals of a gate's operands its own
    places: IndexMap<(u32, u32), Lit>,
}

impl<'a> Gates<'a> {
    /// None, beside a graph with these rows.
    pub(crate) fn new(alloc: Global, base: &'a [Row]) -> Gates<'a> {
        Gates {
            base,
            pairs: Vec::new(alloc),
            rows: Vec::new(alloc),
            places: IndexMap::new(alloc),
        }
    }

    /// The row of a literal.
    pub(crate) fn row(&self, lit: Lit) -> Row {
        let v = lit.var() as usize;
        if v < self.base.len() {
            value(self.base, lit)
        } else {
            match self.rows.get(v - self.base.len()) {
                Some(row) => row.not_if(lit.negated()),
                None => Row::zero(),
            }
        }
    }

    pub(crate) fn and(&mut self, x: Lit, y: Lit) -> Result<Lit, Memory> {
        let (low, high) = if x.0 <= y.0 { (x, y) } else { (y, x) };
        if low.0 == 0 || low.not().0 == high.0 {
            return Ok(Lit(0));
        }
        if low.0 == 1 || low.0 == high.0 {
            return Ok(high);
        }
        match self.places.get(&(low.0, high.0)) {
            Some(lit) => Ok(*lit),
            None => self.push(low, high),
        }
    }

    // One gate more.
    fn push(&mut self, low: Lit, high: Lit) -> Result<Lit, Memory> {
        let v = self.base.len().wrapping_add(self.rows.len());
        let lit = Lit((v as u64 % (1 << 31)) as u32 * 2);
        let row = self.row(low).and(&self.row(high));
        self.pairs.push((low, high))?;
        self.rows.push(row)?;
        self.places.insert((low.0, high.0), lit)?;
        Ok(lit)
    }

    pub(crate) fn or(&mut self, x: Lit, y: Lit) -> Result<Lit, Memory> {
        let neither = self.and(x.not(), y.not())?;
        Ok(neither.not())
    }

    pub(crate) fn xor(&mut self, x: Lit, y: Lit) -> Result<Lit, Memory> {
        let left = self.and(x, y.not())?;
        let right = self.and(x.not(), y)?;
        self.or(left, right)
    }

    /// The first literal where the condition is true, else the second.
    pub(crate) fn choose(&mut self, condition: Lit, x: Lit, y: Lit) -> Result<Lit, Memory> {
        let left = self.and(condition, x)?;
        let right = self.and(condition.not(), y)?;
        self.or(left, right)
    }

    /// The sum and the carry of a half adder.
    pub(crate) fn half_adder(&mut self, x: Lit, y: Lit) -> Result<(Lit, Lit), Memory> {
        let sum = self.xor(x, y)?;
        let carry = self.and(x, y)?;
        Ok((sum, carry))
    }

    /// The sum and the carry of a full adder, by the sum of the first two.
    pub(crate) fn full_adder(&mut self, x: Lit, y: Lit, z: Lit) -> Result<(Lit, Lit), Memory> {
        let inner = self.xor(x, y)?;
        let sum = self.xor(inner, z)?;
        let both = self.and(x, y)?;
        let passed = self.and(inner, z)?;
        Ok((sum, self.or(both, passed)?))
    }
}

// Equal literals in place of a pair's.
use crate::table::Table;
use graph_core::{Graph, Lit, Memory};
use indexmap::IndexMap;
use std::alloc::Global;

/// Pairs, and how many variables the outputs read from them upward.
#[derive(Debug, Drop)]
pub(crate) struct Raised {
    pub(crate) pairs: Vec<(Lit, Lit)>,
    pub(crate) width: usize,
}

/// Pairs with the same signatures, of literals that the outputs from a column on read without one of such a signature
/// between, where there are any.
pub(crate) fn raise(
    alloc: Global,
    graph: &Graph,
    table: &Table,
    lo: u32,
    pairs: &[(Lit, Lit)],
) -> Result<Raised, Memory> {
    let mut walk = Walk::new(alloc, graph, table, pairs)?;
    for (column, output) in graph.output_literals().iter().enumerate() {
        if column >= lo as usize {
            walk.reach(output.var())?;
        }
    }
    for place in 0..graph.max() as usize {
        if place >= walk.path.len() {
            break;
        }
        walk.enter(place)?;
    }
    let mut raised = Vec::new(alloc);
    for (x, y) in pairs {
        raised.push(in_order(walk.equal(*x), walk.equal(*y)))?;
    }
    Ok(Raised {
        pairs: raised,
        width: walk.path.len(),
    })
}

// The variables that are reached from the outputs, no further than to one with the signature of a pair's literal or of
// its negation.
#[derive(Drop)]
struct Walk<'a> {
    graph: &'a Graph,
    table: &'a Table,
    reached: Vec<bool>,
    path: Vec<u32>,
    /// by class, the highest variable that is met; 0 where none is
    met: IndexMap<u64, u32>,
}

impl<'a> Walk<'a> {
    fn new(
        alloc: Global,
        graph: &'a Graph,
        table: &'a Table,
        pairs: &[(Lit, Lit)],
    ) -> Result<Walk<'a>, Memory> {
        let mut met = IndexMap::new(alloc);
        for (x, y) in pairs {
            for lit in [*x, *y] {
                if lit.var() > 0 {
                    met.insert(table.class(lit), 0)?;
                }
            }
        }
        Ok(Walk {
            graph,
            table,
            reached: vec![in alloc; false; graph.max() as usize + 1]?,
            path: Vec::new(alloc),
            met,
        })
    }

    // One variable more, unless it is the constant or was reached before.
    fn reach(&mut self, v: u32) -> Result<(), Memory> {
        let place = v as usize;
        if v > 0 && place < self.reached.len() && !self.reached[place] {
            self.reached[place] = true;
            self.path.push(v)?;
        }
        Ok(())
    }

    // The operands of the gate at a place, unless its variable is met there.
    fn enter(&mut self, place: usize) -> Result<(), Memory> {
        let Some(v) = self.path.get(place).copied() else {
            return Ok(());
        };
        if self.meet(v)? || v > self.graph.max() {
            return Ok(());
        }
        if let Some(gate) = self.graph.gate(v) {
            self.reach(gate.left.var())?;
            self.reach(gate.right.var())?;
        }
        Ok(())
    }

    // Whether a variable has the signature of a pair's literal.
    fn meet(&mut self, v: u32) -> Result<bool, Memory> {
        let class = self.table.class(Lit(v.wrapping_mul(2)));
        let Some(known) = self.met.get(&class).copied() else {
            return Ok(false);
        };
        if known == 0 || self.level(known) < self.level(v) {
            self.met.insert(class, v)?;
        }
        Ok(true)
    }

    fn level(&self, v: u32) -> u32 {
        if v <= self.graph.max() {
            self.graph.level(v)
        } else {
            0
        }
    }

    // The literal itself, if it is met, or an equal one.
    fn equal(&self, lit: Lit) -> Lit {
        let place = lit.var() as usize;
        if place < self.reached.len() && self.reached[place] {
            return lit;
        }
        match self.met.get(&self.table.class(lit)) {
            Some(v) if *v > 0 => self.like(*v, lit),
            _ => lit,
        }
    }

    // The literal of a variable with a literal's signature, or the literal.
    fn like(&self, v: u32, lit: Lit) -> Lit {
        let signature = self.table.signature(lit);
        let other = Lit(v.wrapping_mul(2));
        if self.table.signature(other).is(&signature) {
            other
        } else if self.table.signature(other.not()).is(&signature) {
            other.not()
        } else {
            lit
        }
    }
}

// The lesser literal first.
fn in_order(x: Lit, y: Lit) -> (Lit, Lit) {
    if x.0 <= y.0 { (x, y) } else { (y, x) }
}

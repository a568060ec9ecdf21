// The variables near an adder.
use clause_core::Clause;
use graph_core::Memory;
use ripple_graft::{Cut, Extended};
use std::alloc::Global;

/// By variable, whether it is near: one of a pair, or of a gate between the pairs and the outputs, old or new, or one
/// that is read below a pair through at most so many gates. No answer depends on which these are.
pub(crate) fn near_variables(
    alloc: Global,
    extended: &Extended<'_>,
    cut: &Cut,
    depth: u32,
) -> Result<Vec<bool>, Memory> {
    let most = extended.max() as usize;
    let mut walk = Walk {
        reached: Vec::from_elem(alloc, false, most + 1)?,
        path: Vec::new(alloc),
    };
    walk.reach_cut(extended, cut, depth)?;
    Ok(walk.reached)
}

/// The variables of a goal, and what is read below them as far as it is marked, the deepest first.
pub(crate) fn variables_below(
    alloc: Global,
    extended: &Extended<'_>,
    goal: &Clause,
    marks: &[bool],
) -> Result<Vec<u32>, Memory> {
    let mut walk = Walk {
        reached: Vec::from_slice(alloc, marks)?,
        path: Vec::new(alloc),
    };
    for mark in walk.reached.iter_mut() {
        *mark = !*mark;
    }
    for lit in goal.lits() {
        walk.reach(lit.unsigned_abs())?;
    }
    walk.go_down(extended, 0)?;
    walk.path.reverse();
    Ok(walk.path)
}

// The variables that are reached, in their order.
#[derive(Drop)]
struct Walk {
    reached: Vec<bool>,
    path: Vec<u32>,
}

impl Walk {
    // One variable more, unless it is the constant or was reached before.
    fn reach(&mut self, var: u32) -> Result<(), Memory> {
        let place = var as usize;
        if var > 0 && place < self.reached.len() && !self.reached[place] {
            self.reached[place] = true;
            self.path.push(var)?;
        }
        Ok(())
    }

    // What is near a cut.
    fn reach_cut(&mut self, extended: &Extended<'_>, cut: &Cut, depth: u32) -> Result<(), Memory> {
        for (x, y) in cut.pairs.as_slice() {
            self.reach(x.var())?;
            self.reach(y.var())?;
        }
        let pairs = self.path.len();
        for (column, output) in extended.graph().output_literals().iter().enumerate() {
            if column >= cut.lo as usize {
                self.reach(output.var())?;
            }
        }
        for gate in extended.gates() {
            if gate.v > extended.graph().max() {
                self.reach(gate.v)?;
            }
        }
        self.go_down(extended, pairs)?;
        self.deepen(extended, pairs, depth)
    }

    // What is read below the variables from a place on.
    fn go_down(&mut self, extended: &Extended<'_>, from: usize) -> Result<(), Memory> {
        for place in from..self.reached.len() {
            match self.path.get(place).copied() {
                Some(var) => self.enter(extended, var)?,
                None => break,
            }
        }
        Ok(())
    }

    // What is read below the first variables, through at most so many gates.
    fn deepen(&mut self, extended: &Extended<'_>, first: usize, depth: u32) -> Result<(), Memory> {
        let (mut start, mut end) = (0, first);
        for _depth in 0..depth {
            if start == end {
                break;
            }
            let count = self.path.len();
            for place in start..end {
                if let Some(var) = self.path.get(place).copied() {
                    self.enter(extended, var)?;
                }
            }
            (start, end) = (count, self.path.len());
        }
        Ok(())
    }

    // The operands of a variable's gate, if it has one.
    fn enter(&mut self, extended: &Extended<'_>, var: u32) -> Result<(), Memory> {
        if var <= extended.max() {
            if let Some(gate) = extended.gate(var) {
                self.reach(gate.left.var())?;
                self.reach(gate.right.var())?;
            }
        }
        Ok(())
    }
}

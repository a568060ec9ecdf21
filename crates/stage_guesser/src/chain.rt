// Ripple-carry adders that have the outputs' values on all patterns.
use crate::choices::{Choice, Position, choices};
use crate::near::near_below;
use crate::signature::Signature;
use crate::table::Table;
use graph_core::{Graph, Lit, Memory};
use indexmap::IndexMap;
use std::alloc::Global;

// How many positions are looked at altogether.
const MOST_POSITIONS: u32 = 16384;

// A position has fewer choices than 4,096, and is given up once, so that no search takes so many steps.
const TOO_MANY: u32 = MOST_POSITIONS * 4096;

// So many gates at most lie between an output and the literals that its pair may have.
const DEPTH: u32 = 8;

// No further gate is looked into where there are so many.
const MANY: usize = 300;

/// A search, column by column upward, for the pairs of an adder.
#[derive(Drop)]
pub(crate) struct Search<'a> {
    alloc: Global,
    graph: &'a Graph,
    table: &'a Table,
    /// by output, the variables near it
    near: Vec<Vec<u32>>,
    /// the columns and carries from which no adder goes on to the last column, by one number each
    dead: IndexMap<u64, u32>,
    /// how many positions may yet be looked at
    left: u32,
    /// whether pairs with a constant come late
    late: bool,
}

// A position of an adder: what it may add, and how many of these were tried.
#[derive(Drop)]
struct Frame {
    place: u64,
    choices: Vec<Choice>,
    tried: usize,
}

// What a step of a search comes to.
#[derive(Clone, Copy, Debug)]
enum Step {
    On,
    Found,
    End,
}

impl<'a> Search<'a> {
    pub(crate) fn new(
        alloc: Global,
        graph: &'a Graph,
        table: &'a Table,
    ) -> Result<Search<'a>, Memory> {
        let mut near = Vec::new(alloc);
        for output in graph.output_literals() {
            near.push(near_below(alloc, graph, output.var(), DEPTH, MANY)?)?;
        }
        Ok(Search {
            alloc,
            graph,
            table,
            near,
            dead: IndexMap::new(alloc),
            left: MOST_POSITIONS,
            late: false,
        })
    }

    /// Begins anew, and with pairs in the other order.
    pub(crate) fn turn(&mut self) {
        self.dead.clear();
        self.left = MOST_POSITIONS;
        self.late = !self.late;
    }

    /// The pairs of an adder from a column on, if one is found.
    pub(crate) fn pairs_from(&mut self, lo: usize) -> Result<Option<Vec<(Lit, Lit)>>, Memory> {
        let mut path = Vec::new(self.alloc);
        self.go_on(&mut path, lo, &Signature::zero())?;
        for _step in 0..TOO_MANY {
            match self.step(&mut path, lo)? {
                Step::On => {}
                Step::Found => return Ok(Some(pairs_of(self.alloc, &path)?)),
                Step::End => return Ok(None),
            }
        }
        Ok(None)
    }

    // The next choice of the last position is tried, or that position is given up.
    fn step(&mut self, path: &mut Vec<Frame>, lo: usize) -> Result<Step, Memory> {
        if path.is_empty() {
            return Ok(Step::End);
        }
        let column = lo.wrapping_add(path.len());
        let Some(choice) = next_choice(path) else {
            if let Some(frame) = path.pop() {
                self.dead.insert(frame.place, 0)?;
            }
            return Ok(Step::On);
        };
        let outputs = self.graph.output_literals();
        if self.is_refused(path, &choice, column < outputs.len()) {
            return Ok(Step::On);
        }
        if column >= outputs.len() || self.is_last(column, &choice.carry) {
            return Ok(Step::Found);
        }
        if self.left == 0 {
            return Ok(Step::End);
        }
        self.go_on(path, column, &choice.carry)?;
        Ok(Step::On)
    }

    // One position more, unless nothing goes on from it.
    fn go_on(
        &mut self,
        path: &mut Vec<Frame>,
        column: usize,
        carry: &Signature,
    ) -> Result<(), Memory> {
        let place = place_of(column, carry);
        if self.left == 0 || (!path.is_empty() && self.dead.get(&place).is_some()) {
            return Ok(());
        }
        self.left = self.left.wrapping_sub(1);
        let outputs = self.graph.output_literals();
        if let (Some(output), Some(near)) = (outputs.get(column), self.near.get(column)) {
            let position = Position {
                output: *output,
                carry: *carry,
                next: outputs.get(column.wrapping_add(1)).copied(),
            };
            let choices = choices(
                self.alloc, self.graph, self.table, near, &position, self.late,
            )?;
            path.push(Frame {
                place,
                choices,
                tried: 0,
            })?;
        }
        Ok(())
    }

    // Whether a carry is the last output.
    fn is_last(&self, column: usize, carry: &Signature) -> bool {
        let outputs = self.graph.output_literals();
        match outputs.get(column) {
            Some(output) => {
                column.wrapping_add(1) == outputs.len() && self.table.signature(*output).is(carry)
            }
            None => false,
        }
    }

    // Whether a choice adds what was added before, begins with a constant, or leaves no carry below the last column.
    fn is_refused(&self, path: &[Frame], choice: &Choice, goes_on: bool) -> bool {
        if path.len() < 2 && choice.pair.0.var() == 0 {
            return true;
        }
        if goes_on && choice.carry.is(&Signature::zero()) {
            return true;
        }
        let earlier = path.len().saturating_sub(1);
        path.iter()
            .take(earlier)
            .any(|frame| self.is_met(frame, choice))
    }

    // Whether a choice has a literal of the pair in use at a position, or its negation.
    fn is_met(&self, frame: &Frame, choice: &Choice) -> bool {
        match frame.choices.get(frame.tried.wrapping_sub(1)) {
            Some(used) => self.meets(used.pair, choice.pair.0)
                || self.meets(used.pair, choice.pair.1),
            None => false,
        }
    }

    fn meets(&self, pair: (Lit, Lit), lit: Lit) -> bool {
        let class = self.table.class(lit);
        lit.var() > 0 && (class == self.table.class(pair.0) || class == self.table.class(pair.1))
    }
}

// The next choice of the last position.
fn next_choice(path: &mut Vec<Frame>) -> Option<Choice> {
    let frame = path.last_mut()?;
    let choice = frame.choices.get(frame.tried).copied();
    frame.tried = frame.tried.wrapping_add(1);
    choice
}

// The pairs in use.
fn pairs_of(alloc: Global, path: &[Frame]) -> Result<Vec<(Lit, Lit)>, Memory> {
    let mut pairs = Vec::new(alloc);
    for frame in path {
        if let Some(choice) = frame.choices.get(frame.tried.wrapping_sub(1)) {
            pairs.push(choice.pair)?;
        }
    }
    Ok(pairs)
}

// A number for a column and a carry into it.
fn place_of(column: usize, carry: &Signature) -> u64 {
    carry.key() ^ (column as u64).wrapping_mul(0x9e37_79b9_7f4a_7c15)
}

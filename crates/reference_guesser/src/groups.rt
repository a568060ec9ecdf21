// Neighbouring positions of an adder that the graph puts together before it knows the carry into them.
use crate::gates::Gates;
use crate::row::Row;
use crate::signals::Signals;
use graph_core::{Lit, Memory};
use indexmap::IndexMap;
use std::alloc::Global;

// A position has no more groups.
const MOST: usize = 16;

/// Positions of adders, each with the groups that end there.
#[derive(Drop)]
pub(crate) struct Groups {
    alloc: Global,
    positions: Vec<Position>,
    /// by the literal of a position's carry out
    places: IndexMap<u32, usize>,
}

// A position.
#[derive(Drop)]
struct Position {
    pair: (Lit, Lit),
    carry: Lit,
    /// that below it, if there is one
    before: Option<usize>,
    /// the positions that are put together with it: one, some, more
    groups: Vec<Group>,
}

// Positions from one on whose carry and whose propagation the graph has.
#[derive(Clone, Copy, Debug)]
struct Group {
    first: usize,
    generate: Lit,
    propagate: Lit,
}

impl Groups {
    /// No position.
    pub(crate) fn new(alloc: Global) -> Groups {
        Groups {
            alloc,
            positions: Vec::new(alloc),
            places: IndexMap::new(alloc),
        }
    }

    /// Whether a literal is the carry out of a position.
    pub(crate) fn is_carry(&self, lit: Lit) -> bool {
        self.places.get(&lit.0).is_some()
    }

    /// Whether a literal is the carry out of a position that adds the same two literals.
    pub(crate) fn is_passed(&self, pair: (Lit, Lit), carry: Lit) -> bool {
        match self.places.get(&carry.0) {
            Some(place) => match self.positions.get(*place) {
                Some(position) => { position.pair == pair || position.pair == (pair.1, pair.0) }
                None => false,
            },
            None => false,
        }
    }

    /// One position more, which adds two literals and a carry, with its carry out. Its carry is made once more from each
    /// group but the greatest one and the carry into that: stones from each to the next.
    pub(crate) fn put(
        &mut self,
        gates: &mut Gates<'_>,
        signals: &Signals<'_>,
        pair: (Lit, Lit),
        carry: Lit,
        out: Lit,
    ) -> Result<(), Memory> {
        let (x, y) = (gates.row(pair.0), gates.row(pair.1));
        let mut position = Position {
            pair,
            carry,
            before: self.places.get(&carry.0).copied(),
            groups: Vec::new(self.alloc),
        };
        let place = self.positions.len();
        if let Some(group) = single(signals, place, &x, &y) {
            position.groups.push(group)?;
            self.widen(gates, signals, &mut position)?;
        }
        self.positions.push(position)?;
        self.places.insert(out.0, place)?;
        Ok(())
    }

    // Adds the greater groups.
    fn widen(
        &self,
        gates: &mut Gates<'_>,
        signals: &Signals<'_>,
        position: &mut Position,
    ) -> Result<(), Memory> {
        for _group in 0..MOST {
            let (last, count) = (position.groups.last().copied(), position.groups.len());
            let Some(last) = last else {
                return Ok(());
            };
            let before = if count == 1 {
                position.before
            } else {
                self.before(last.first)
            };
            let Some(next) = self.wider(signals, &last, before) else {
                return Ok(());
            };
            if count > 1 {
                self.make_stone(gates, &last)?;
            }
            gates.and(next.generate, next.propagate)?;
            position.groups.push(next)?;
        }
        Ok(())
    }

    // The position below one.
    fn before(&self, place: usize) -> Option<usize> {
        match self.positions.get(place) {
            Some(position) => position.before,
            None => None,
        }
    }

    // A group with one that ends below it, if the graph has it.
    fn wider(&self, signals: &Signals<'_>, high: &Group, below: Option<usize>) -> Option<Group> {
        let position = self.positions.get(below?)?;
        for low in position.groups.iter().rev() {
            if let Some(group) = joined(signals, high, low) {
                return Some(group);
            }
        }
        None
    }

    // The carry out of a group, by the carry into it.
    fn make_stone(&self, gates: &mut Gates<'_>, group: &Group) -> Result<(), Memory> {
        if let Some(position) = self.positions.get(group.first) {
            let passed = gates.and(group.propagate, position.carry)?;
            gates.or(group.generate, passed)?;
        }
        Ok(())
    }
}

// The group of one position, if the graph has its sum without carry and its carry.
fn single(signals: &Signals<'_>, place: usize, x: &Row, y: &Row) -> Option<Group> {
    let both = x.and(y);
    let generate = if y.is_zero() {
        Lit(0)
    } else {
        signals.with_row(&both)?
    };
    Some(Group {
        first: place,
        generate,
        propagate: signals.with_row(&x.xor(y))?,
    })
}

// Two neighbouring groups together, if the graph has both their carry and their propagation.
fn joined(signals: &Signals<'_>, high: &Group, low: &Group) -> Option<Group> {
    let propagate = signals.and(high.propagate, low.propagate)?;
    let passed = signals.and(high.propagate, low.generate)?;
    let generate = signals.or(high.generate, passed)?;
    Some(Group {
        first: low.first,
        generate,
        propagate,
    })
}

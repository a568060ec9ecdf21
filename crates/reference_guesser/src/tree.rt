// A reference in one style: its columns, the lowest first.
use crate::adders::{pair_steps, turn_steps};
use crate::beam::Beam;
use crate::fallback::Extent;
use crate::gates::Gates;
use crate::groups::Groups;
use crate::known::Known;
use crate::merge::{Merge, Step};
use crate::pool::Pool;
use crate::products::{Column, Form, Products};
use crate::signals::Signals;
use crate::stones::make_stones;
use crate::style::{Shape, Style};
use crate::sure::sure_adders;
use crate::words::{Rows, Word, word_steps};
use graph_core::{Graph, Lit, Memory, Operands};
use std::alloc::Global;

// An addend of a column.
#[derive(Clone, Copy, Debug)]
struct Addend {
    lit: Lit,
    level: u32,
    word: Word,
}

// A column by its number.
#[derive(Clone, Copy)]
struct Place {
    column: u32,
    is_last: bool,
}

/// What is made so far.
#[derive(Drop)]
pub(crate) struct Tree<'a> {
    alloc: Global,
    known: &'a Known,
    signals: &'a Signals<'a>,
    style: Style,
    rows: Rows,
    /// whether what isn't a product is added
    has_others: bool,
    groups: Groups,
    pub(crate) gates: Gates<'a>,
    /// by column: the literal of its sum
    pub(crate) sums: Vec<Lit>,
    /// the carries into the next column
    carries: Vec<Addend>,
    /// how many full adders may yet be judged
    pub(crate) left: u64,
    /// whether what each merge gives is known
    pub(crate) is_whole: bool,
}

impl<'a> Tree<'a> {
    /// The whole reference of a graph, whose rows are told by variable; no more than so many full adders are judged.
    pub(crate) fn new(
        alloc: Global,
        graph: &Graph,
        operands: &Operands,
        signals: &'a Signals<'a>,
        known: &'a Known,
        style: Style,
        most: u64,
    ) -> Result<Tree<'a>, Memory> {
        let mut tree = Tree {
            alloc,
            known,
            signals,
            style,
            rows: Rows {
                form: style.form,
                a: operands.a_width(),
                b: operands.b_width(),
            },
            has_others: false,
            groups: Groups::new(alloc),
            gates: Gates::new(alloc, signals.rows),
            sums: Vec::new(alloc),
            carries: Vec::new(alloc),
            left: most,
            is_whole: true,
        };
        let count = graph.outputs();
        let products = Products::of(alloc, &mut tree.gates, operands, count, style.form)?;
        tree.has_others = products
            .columns
            .iter()
            .any(|column| !column.others.is_empty());
        for (k, column) in products.columns.iter().enumerate() {
            let place = Place {
                column: (k % (1 << 32)) as u32,
                is_last: k.wrapping_add(1) == count as usize,
            };
            tree.add_column(column, place)?;
        }
        Ok(tree)
    }

    // One column more: what is to be added there and the carries into it are put together.
    fn add_column(&mut self, column: &Column, place: Place) -> Result<(), Memory> {
        let mut addends = Vec::new(self.alloc);
        for (number, lit) in column.products.iter().enumerate() {
            let word = self.rows.word(place.column, (number % (1 << 32)) as u32);
            push_lit(&mut addends, *lit, word)?;
        }
        addends.extend_from_slice(&self.carries)?;
        for lit in column.others.iter() {
            push_lit(&mut addends, *lit, self.rows.other())?;
        }
        self.carries.clear();
        let extent = Extent {
            products: (column.products.len() % (1 << 32)) as u32,
            addends: (addends.len() % (1 << 32)) as u32,
            is_low: place.column < self.rows.a,
        };
        let path = self.plan(&addends, extent, place.is_last)?;
        self.build(&addends, &path)
    }

    // The merges of a column's addends.
    fn plan(
        &mut self,
        addends: &[Addend],
        extent: Extent,
        is_last: bool,
    ) -> Result<Vec<Step>, Memory> {
        let mut pool = Pool::new(self.alloc, self.known, self.style.lost, is_last);
        let mut members = Vec::new(self.alloc);
        for addend in addends {
            members.push(pool.push(self.gates.row(addend.lit), addend.level)?)?;
        }
        if let Shape::Words | Shape::Pairs | Shape::Turns = self.style.shape {
            let path = self.word_path(addends, &mut pool)?;
            self.see(&pool, &path);
            return Ok(path);
        }
        let mut path = Vec::new(self.alloc);
        if !self.style.is_blind {
            path = sure_adders(self.alloc, &mut pool, &mut members)?;
        }
        let mut beam = Beam::new(self.alloc, pool, extent, self.style, self.left);
        for step in beam.best_path(members)? {
            path.push(step)?;
        }
        self.left = beam.left;
        self.see(&beam.pool, &path);
        Ok(path)
    }

    // Keeps whether what each merge gives is known.
    fn see(&mut self, pool: &Pool<'_>, path: &[Step]) {
        self.is_whole = self.is_whole && path.iter().all(|step| pool.is_whole(&step.merge));
    }

    // Those of words.
    fn word_path(&self, addends: &[Addend], pool: &mut Pool<'_>) -> Result<Vec<Step>, Memory> {
        let mut words = Vec::new(self.alloc);
        for addend in addends {
            words.push(addend.word)?;
        }
        // what is no product is one word more
        let more = u32::from(self.has_others);
        let count = self.rows.count();
        match self.style.shape {
            Shape::Pairs => pair_steps(self.alloc, pool, &words, count.saturating_add(more)),
            Shape::Turns => turn_steps(self.alloc, pool, &words, count.saturating_add(more)),
            _ => word_steps(self.alloc, pool, &words, count),
        }
    }

    // Makes the gates of merges; the sum of the last one is the column's.
    fn build(&mut self, addends: &[Addend], path: &[Step]) -> Result<(), Memory> {
        let mut numbered = Vec::new(self.alloc);
        numbered.extend_from_slice(addends)?;
        let mut sum = match addends.first() {
            Some(addend) => addend.lit,
            None => Lit(0),
        };
        for step in path {
            sum = self.make(&mut numbered, step)?;
        }
        self.sums.push(sum)?;
        Ok(())
    }

    // Makes the gates of a merge, and tells its sum.
    fn make(&mut self, numbered: &mut Vec<Addend>, step: &Step) -> Result<Lit, Memory> {
        let (lits, level) = taken(self.alloc, numbered, &step.merge)?;
        make_stones(&mut self.gates, self.known, &lits)?;
        let (sum, carry) = self.make_adder(&lits)?;
        put(numbered, step.sum as usize, sum, level.wrapping_add(2))?;
        if carry.0 != 0 {
            self.carries.push(Addend {
                lit: carry,
                level: level.wrapping_add(1),
                word: step.word,
            })?;
        }
        Ok(sum)
    }

    // The sum and the carry of two or three literals; of three those are put together first whose sum is known.
    fn make_adder(&mut self, lits: &[Lit]) -> Result<(Lit, Lit), Memory> {
        match lits {
            [x, y] => self.make_end(*x, *y),
            [x, y, z] => {
                if let Some(adder) = self.make_complemented(*x, *y, *z)? {
                    Ok(adder)
                } else if self.is_inner(*x, *y) {
                    self.make_position((*x, *y), *z)
                } else if self.is_inner(*y, *z) {
                    self.make_position((*y, *z), *x)
                } else if self.is_inner(*z, *x) {
                    self.make_position((*z, *x), *y)
                } else {
                    self.gates.full_adder(*x, *y, *z)
                }
            }
            _ => Ok((Lit(0), Lit(0))),
        }
    }

    // The same of complemented rows, where one literal alone is a carry. Where it is that of the other two, which repeat up
    // to the last column, it stays what it is.
    fn make_complemented(&mut self, x: Lit, y: Lit, z: Lit) -> Result<Option<(Lit, Lit)>, Memory> {
        if self.style.form != Form::Complemented {
            return Ok(None);
        }
        let Some((pair, carry)) = self.with_carry_last(x, y, z) else {
            return Ok(None);
        };
        if self.groups.is_passed(pair, carry) {
            let inner = self.gates.xor(pair.0, pair.1)?;
            let sum = self.gates.xor(inner, carry)?;
            return Ok(Some((sum, carry)));
        }
        let adder = self.make_position(pair, carry)?;
        Ok(Some(adder))
    }

    // Three literals, of which the last one alone is a carry.
    fn with_carry_last(&self, x: Lit, y: Lit, z: Lit) -> Option<((Lit, Lit), Lit)> {
        let groups = &self.groups;
        match (groups.is_carry(x), groups.is_carry(y), groups.is_carry(z)) {
            (false, false, true) => Some(((x, y), z)),
            (true, false, false) => Some(((y, z), x)),
            (false, true, false) => Some(((z, x), y)),
            _ => None,
        }
    }

    // The same of two literals.
    fn make_end(&mut self, x: Lit, y: Lit) -> Result<(Lit, Lit), Memory> {
        let (sum, out) = self.gates.half_adder(x, y)?;
        self.put_end(x, y, out)?;
        Ok((sum, out))
    }

    // The position that adds two literals, of which one may be a carry into it.
    fn put_end(&mut self, x: Lit, y: Lit, out: Lit) -> Result<(), Memory> {
        let (low, high) = if x.0 <= y.0 { (x, y) } else { (y, x) };
        let (pair, carry) = if self.groups.is_carry(high) {
            ((low, Lit(0)), high)
        } else if self.groups.is_carry(low) {
            ((high, Lit(0)), low)
        } else {
            ((low, high), Lit(0))
        };
        self.groups
            .put(&mut self.gates, self.signals, pair, carry, out)
    }

    // The sum and the carry of a pair and a carry, and what the graph puts together with it.
    fn make_position(&mut self, pair: (Lit, Lit), carry: Lit) -> Result<(Lit, Lit), Memory> {
        let (sum, out) = self.gates.full_adder(pair.0, pair.1, carry)?;
        if self.groups.is_carry(pair.0) || self.groups.is_carry(pair.1) {
            // two adders end here
            let both = self.gates.and(pair.0, pair.1)?;
            self.put_end(pair.0, pair.1, both)?;
        }
        self.groups
            .put(&mut self.gates, self.signals, pair, carry, out)?;
        Ok((sum, out))
    }

    // Whether the sum of two literals is known.
    fn is_inner(&self, x: Lit, y: Lit) -> bool {
        let row = self.gates.row(x).xor(&self.gates.row(y));
        self.known.has(row.key())
    }

    /// How many of a thousand gates are known.
    pub(crate) fn share(&self) -> u32 {
        let mut count = 0u64;
        for row in self.gates.rows.iter() {
            if self.known.has(row.key()) {
                count = count.saturating_add(1);
            }
        }
        let all = (self.gates.rows.len() as u64).max(1);
        (count.saturating_mul(1000) / all).min(1000) as u32
    }
}

// Puts a literal that is no sum or carry.
fn push_lit(addends: &mut Vec<Addend>, lit: Lit, word: Word) -> Result<(), Memory> {
    addends.push(Addend {
        lit,
        level: 0,
        word,
    })?;
    Ok(())
}

// The literals that a merge takes, and the greatest of their levels.
fn taken(alloc: Global, numbered: &[Addend], merge: &Merge) -> Result<(Vec<Lit>, u32), Memory> {
    let mut lits = Vec::new(alloc);
    let mut level = 0u32;
    for number in [Some(merge.x), Some(merge.y), merge.z] {
        if let Some(number) = number {
            if let Some(addend) = numbered.get(number as usize) {
                lits.push(addend.lit)?;
                level = level.max(addend.level);
            }
        }
    }
    Ok((lits, level))
}

// Puts an addend at a place, with nothing at those before it that have none.
fn put(numbered: &mut Vec<Addend>, place: usize, lit: Lit, level: u32) -> Result<(), Memory> {
    for _place in numbered.len()..place.saturating_add(1) {
        numbered.push(Addend {
            lit: Lit(0),
            level: 0,
            word: Word::first(),
        })?;
    }
    if let Some(addend) = numbered.get_mut(place) {
        addend.lit = lit;
        addend.level = level;
    }
    Ok(())
}

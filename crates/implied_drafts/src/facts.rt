// What follows from a variable by unit propagation through the gates.
use graph_core::{Gate, Lit, Memory};
use ripple_graft::Extended;
use std::alloc::Global;

// Of a variable no more literals are looked at for what follows from them.
const REACH: usize = 64;

// Of a product so many are looked at for each variable below it, if those are more.
const REACH_OF_EACH: usize = 24;

// Below a product no more variables are counted.
const MOST_BELOW: usize = 512;

// All products together are looked into no further.
const MOST_IN_ALL: usize = 1 << 22;

// Of a variable that more gates read it isn't asked which.
const READERS: usize = 64;

/// By which rule a literal follows at a gate.
#[derive(Clone, Copy, Debug, PartialEq, Eq)]
pub(crate) enum Rule {
    /// the gate is true, and so is its operand
    Operand,
    /// an operand is false, and so is the gate
    FalseOperand,
    /// both operands are true, and so is the gate
    TrueOperands,
    /// the gate is false and an operand is true, so the other one is false
    OtherOperand,
}

/// A literal that follows from a variable.
#[derive(Clone, Copy, Debug)]
pub(crate) struct Fact {
    pub(crate) lit: Lit,
    /// the variable of the gate at which it follows
    pub(crate) gate: u32,
    pub(crate) rule: Rule,
    /// how many literals were found before it
    pub(crate) place: usize,
}

/// By variable the literals that follow from it, each found when it is first asked for.
#[derive(Drop)]
pub(crate) struct Facts<'a> {
    alloc: Global,
    extended: &'a Extended<'a>,
    /// by variable: the gates that read it
    readers: Vec<Vec<u32>>,
    /// by variable: its level
    levels: Vec<u32>,
    /// by variable: what follows from it, by rising literals
    known: Vec<Option<Vec<Fact>>>,
    /// by variable: its value while something is propagated
    values: Vec<Option<bool>>,
    /// by variable: whether its gate is a wide product, or one that such a product reads
    products: Vec<bool>,
    /// how many literals products may yet be looked at for
    left: usize,
}

impl<'a> Facts<'a> {
    /// Nothing was asked for yet.
    pub(crate) fn new(alloc: Global, extended: &'a Extended<'a>) -> Result<Facts<'a>, Memory> {
        let room = extended.max() as usize + 1;
        let mut facts = Facts {
            alloc,
            extended,
            readers: Vec::new(alloc),
            levels: vec![in alloc; 0u32; room]?,
            known: Vec::new(alloc),
            values: vec![in alloc; None; room]?,
            products: Vec::new(alloc),
            left: MOST_IN_ALL,
        };
        for _ in 0..room {
            facts.readers.push(Vec::new(alloc))?;
            facts.known.push(None)?;
        }
        if let Some(constant) = facts.values.first_mut() {
            *constant = Some(false);
        }
        for gate in extended.gates() {
            facts.meet(*gate)?;
        }
        Ok(facts)
    }

    // One more gate: what it reads is read by it. Added gates are listed after those that they read.
    fn meet(&mut self, gate: Gate) -> Result<(), Memory> {
        self.push_reader(gate.left.var(), gate.v)?;
        self.push_reader(gate.right.var(), gate.v)?;
        let graph = self.extended.graph();
        let level = if gate.v <= graph.max() {
            graph.level(gate.v)
        } else {
            let operands = self
                .level(gate.left.var())
                .max(self.level(gate.right.var()));
            operands.saturating_add(1)
        };
        if let Some(place) = self.levels.get_mut(gate.v as usize) {
            *place = level;
        }
        Ok(())
    }

    fn push_reader(&mut self, v: u32, reader: u32) -> Result<(), Memory> {
        if let Some(readers) = self.readers.get_mut(v as usize) {
            readers.push(reader)?;
        }
        Ok(())
    }

    /// The level of a variable.
    pub(crate) fn level(&self, v: u32) -> u32 {
        match self.levels.get(v as usize) {
            Some(level) => *level,
            None => 0,
        }
    }

    /// The gate of a variable, if it is one's.
    pub(crate) fn gate(&self, v: u32) -> Option<Gate> {
        if v <= self.extended.max() {
            self.extended.gate(v)
        } else {
            None
        }
    }

    /// Whether no other gate reads both variables that a gate reads, as far as that is seen.
    pub(crate) fn is_alone(&self, gate: Gate) -> bool {
        let (x, y) = (gate.left.var(), gate.right.var());
        if self.reader_count(y) < self.reader_count(x) {
            self.is_alone_at(gate.v, y, x)
        } else {
            self.is_alone_at(gate.v, x, y)
        }
    }

    // Whether no gate but one reads two variables.
    fn is_alone_at(&self, v: u32, x: u32, y: u32) -> bool {
        let count = self.reader_count(x);
        for place in 0..count.min(READERS) {
            if let Some(reader) = self.reader(x, place) {
                let has_other = reader.left.var() == y || reader.right.var() == y;
                if has_other && reader.v != v {
                    return false;
                }
            }
        }
        count <= READERS
    }

    /// Why a literal follows from a variable, if it does.
    pub(crate) fn find(&mut self, v: u32, lit: Lit) -> Result<Option<Fact>, Memory> {
        match self.about(v, lit.var())? {
            Some(fact) if fact.lit.0 == lit.0 => Ok(Some(fact)),
            _ => Ok(None),
        }
    }

    /// What follows from one variable of another, if anything does: from itself, or from a product that its gate reads.
    pub(crate) fn about(&mut self, v: u32, other: u32) -> Result<Option<Fact>, Memory> {
        if let Some(fact) = self.told(v, other)? {
            return Ok(Some(fact));
        }
        let Some(gate) = self.gate(v) else {
            return Ok(None);
        };
        for operand in [gate.left, gate.right] {
            if !operand.negated() && self.is_product(operand.var()) {
                if let Some(fact) = self.told(operand.var(), other)? {
                    return Ok(Some(fact));
                }
            }
        }
        Ok(None)
    }

    // What is found from one variable of another, if anything is.
    fn told(&mut self, v: u32, other: u32) -> Result<Option<Fact>, Memory> {
        self.learn(v)?;
        match self.known.get(v as usize) {
            Some(Some(facts)) => Ok(about_in(facts, other)),
            _ => Ok(None),
        }
    }

    /// From now on these variables' gates are wide products, or such as these read.
    pub(crate) fn set_products(&mut self, products: Vec<bool>) {
        self.products = products;
    }

    /// Whether a variable's gate is a wide product, or one that such a product reads.
    pub(crate) fn is_product(&self, v: u32) -> bool {
        self.products.get(v as usize) == Some(&true)
    }

    // How many literals are looked at for what follows from a variable.
    fn most_of(&mut self, v: u32) -> Result<usize, Memory> {
        if !self.is_product(v) {
            return Ok(REACH);
        }
        let wanted = self.most_of_product(v)?.min(self.left);
        self.left = self.left.saturating_sub(wanted);
        Ok(wanted.max(REACH))
    }

    // How many are looked at for a product's gate: so many for each variable that the product joins.
    fn most_of_product(&self, v: u32) -> Result<usize, Memory> {
        let mut open = vec![in self.alloc; v; 1]?;
        let mut count = 0usize;
        for _ in 0..MOST_BELOW {
            let Some(u) = open.pop() else {
                break;
            };
            if !self.push_operands(&mut open, u)? {
                count = count.saturating_add(REACH_OF_EACH);
            }
        }
        Ok(count)
    }

    // Whether a variable's gate is a product; its operands' variables are open then.
    fn push_operands(&self, open: &mut Vec<u32>, v: u32) -> Result<bool, Memory> {
        if !self.is_product(v) {
            return Ok(false);
        }
        if let Some(gate) = self.gate(v) {
            open.push(gate.left.var())?;
            open.push(gate.right.var())?;
        }
        Ok(true)
    }

    // Finds what follows from a variable, unless it is known.
    fn learn(&mut self, v: u32) -> Result<(), Memory> {
        if let Some(None) = self.known.get(v as usize) {
            let facts = self.propagated(v)?;
            if let Some(place) = self.known.get_mut(v as usize) {
                *place = Some(facts);
            }
        }
        Ok(())
    }

    // What follows from a variable, itself among it.
    fn propagated(&mut self, v: u32) -> Result<Vec<Fact>, Memory> {
        let mut found = Vec::new(self.alloc);
        self.propagate(&mut found, v)?;
        self.forget(&found);
        found.sort_unstable_by_key(|fact| fact.lit.0);
        Ok(found)
    }

    // Finds what follows from a variable, and gives it its value.
    fn propagate(&mut self, found: &mut Vec<Fact>, v: u32) -> Result<(), Memory> {
        let most = self.most_of(v)?;
        self.hold(found, Lit(v.wrapping_mul(2)), v, Rule::Operand)?;
        for place in 0..most {
            let Some(fact) = found.get(place).copied() else {
                break;
            };
            self.go_down(found, fact.lit)?;
            self.go_up(found, fact.lit.var())?;
        }
        Ok(())
    }

    // Takes the values of what was found back.
    fn forget(&mut self, found: &[Fact]) {
        for fact in found {
            if let Some(value) = self.values.get_mut(fact.lit.var() as usize) {
                *value = None;
            }
        }
    }

    // One literal more, unless the value of its variable is known.
    fn hold(
        &mut self,
        found: &mut Vec<Fact>,
        lit: Lit,
        gate: u32,
        rule: Rule,
    ) -> Result<(), Memory> {
        let place = found.len();
        if self.value(lit).is_some() {
            return Ok(());
        }
        if let Some(value) = self.values.get_mut(lit.var() as usize) {
            *value = Some(!lit.negated());
        }
        found.push(Fact {
            lit,
            gate,
            rule,
            place,
        })?;
        Ok(())
    }

    // The value of a literal, if it is known.
    fn value(&self, lit: Lit) -> Option<bool> {
        match self.values.get(lit.var() as usize) {
            Some(Some(value)) => Some(*value != lit.negated()),
            _ => None,
        }
    }

    // What a literal that holds makes of the operands, where it is a gate's.
    fn go_down(&mut self, found: &mut Vec<Fact>, lit: Lit) -> Result<(), Memory> {
        let Some(gate) = self.gate(lit.var()) else {
            return Ok(());
        };
        if gate.left.var() == gate.right.var() {
            return Ok(());
        }
        if lit.negated() {
            return self.exclude(found, gate);
        }
        self.hold(found, gate.left, gate.v, Rule::Operand)?;
        self.hold(found, gate.right, gate.v, Rule::Operand)
    }

    // What a variable that has a value makes of the gates that read it.
    fn go_up(&mut self, found: &mut Vec<Fact>, v: u32) -> Result<(), Memory> {
        for place in 0..self.reader_count(v) {
            if let Some(gate) = self.reader(v, place) {
                self.reach(found, gate)?;
            }
        }
        Ok(())
    }

    fn reader_count(&self, v: u32) -> usize {
        match self.readers.get(v as usize) {
            Some(readers) => readers.len(),
            None => 0,
        }
    }

    // The gate at a place among those that read a variable.
    fn reader(&self, v: u32, place: usize) -> Option<Gate> {
        let reader = *self.readers.get(v as usize)?.get(place)?;
        self.gate(reader)
    }

    // What the known values make of a gate.
    fn reach(&mut self, found: &mut Vec<Fact>, gate: Gate) -> Result<(), Memory> {
        if gate.left.var() == gate.right.var() {
            return Ok(());
        }
        let lit = Lit(gate.v.wrapping_mul(2));
        let (left, right) = (self.value(gate.left), self.value(gate.right));
        if left == Some(false) || right == Some(false) {
            self.hold(found, lit.not(), gate.v, Rule::FalseOperand)
        } else if left == Some(true) && right == Some(true) {
            self.hold(found, lit, gate.v, Rule::TrueOperands)
        } else if self.value(lit) == Some(false) {
            self.exclude(found, gate)
        } else {
            Ok(())
        }
    }

    // Of a gate that is false: where one operand is true the other is false.
    fn exclude(&mut self, found: &mut Vec<Fact>, gate: Gate) -> Result<(), Memory> {
        if self.value(gate.left) == Some(true) {
            self.hold(found, gate.right.not(), gate.v, Rule::OtherOperand)
        } else if self.value(gate.right) == Some(true) {
            self.hold(found, gate.left.not(), gate.v, Rule::OtherOperand)
        } else {
            Ok(())
        }
    }
}

// What is told of a variable by facts with rising literals.
fn about_in(facts: &[Fact], v: u32) -> Option<Fact> {
    let place = facts.partition_point(|fact| fact.lit.var() < v);
    let fact = facts.get(place)?;
    if fact.lit.var() == v {
        Some(*fact)
    } else {
        None
    }
}

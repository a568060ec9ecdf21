// The signatures of a graph's variables.
use crate::patterns::patterns;
use crate::signature::Signature;
use graph_core::{Gate, Graph, Lit, Memory, Numbers, Operands};
use indexmap::IndexMap;
use std::alloc::Global;

// One of the words that the inputs are.
#[derive(Clone, Copy)]
enum Word {
    A,
    B,
    C,
}

/// By variable its signature and that one's key; and by key the lowest of the variables that have it, or whose
/// negations do.
#[derive(Drop)]
pub(crate) struct Table {
    signatures: Vec<Signature>,
    keys: Vec<u64>,
    lowest: IndexMap<u64, u32>,
    /// the key of the constant true
    ones: u64,
}

impl Table {
    /// The table of a graph on the given numbers and drawn ones.
    pub(crate) fn new(
        alloc: Global,
        graph: &Graph,
        operands: &Operands,
        given: &[Numbers],
    ) -> Result<Table, Memory> {
        let mut table = Table::zero(alloc, graph.max() as usize + 1)?;
        table.fill(alloc, graph, operands, given)?;
        Ok(table)
    }

    // So many variables with the signature of the constant false.
    fn zero(alloc: Global, size: usize) -> Result<Table, Memory> {
        Ok(Table {
            signatures: vec![in alloc; Signature::zero(); size]?,
            keys: vec![in alloc; 0; size]?,
            lowest: IndexMap::new(alloc),
            ones: Signature::zero().negated_if(true).key(),
        })
    }

    // The signatures and keys on the given numbers and drawn ones.
    fn fill(
        &mut self,
        alloc: Global,
        graph: &Graph,
        operands: &Operands,
        given: &[Numbers],
    ) -> Result<(), Memory> {
        let patterns = patterns(alloc, operands, given)?;
        self.set_word(operands.a_literals(), &patterns, Word::A);
        self.set_word(operands.b_literals(), &patterns, Word::B);
        self.set_word(operands.c_literals(), &patterns, Word::C);
        self.set_gates(alloc, graph)
    }

    // Sets the values of the gates from those of the operands' bits, and the keys of all variables, by rising level.
    fn set_gates(&mut self, alloc: Global, graph: &Graph) -> Result<(), Memory> {
        let order = by_level(alloc, graph)?;
        for (_level, v) in order.as_slice() {
            if *v <= graph.max() {
                if let Some(gate) = graph.gate(*v) {
                    self.set_gate(gate);
                }
            }
            self.enter(*v)?;
        }
        Ok(())
    }

    /// The signature of a literal.
    pub(crate) fn signature(&self, lit: Lit) -> Signature {
        match self.signatures.get(lit.var() as usize) {
            Some(signature) => signature.negated_if(lit.negated()),
            None => Signature::zero(),
        }
    }

    /// The key of a literal and of its negation alike.
    pub(crate) fn class(&self, lit: Lit) -> u64 {
        match self.keys.get(lit.var() as usize) {
            Some(key) => self.class_of(*key),
            None => 0,
        }
    }

    /// The key of a variable.
    pub(crate) fn key(&self, v: u32) -> u64 {
        match self.keys.get(v as usize) {
            Some(key) => *key,
            None => 0,
        }
    }

    /// The lowest literal with a signature, whose key is told.
    pub(crate) fn find(&self, key: u64, signature: &Signature) -> Option<Lit> {
        let v = *self.lowest.get(&self.class_of(key))?;
        let lit = Lit(v.wrapping_mul(2));
        if self.signature(lit).is(signature) {
            Some(lit)
        } else if self.signature(lit.not()).is(signature) {
            Some(lit.not())
        } else {
            None
        }
    }

    // The lesser one of the keys of a signature and its negation.
    pub(crate) fn class_of(&self, key: u64) -> u64 {
        key.min(key ^ self.ones)
    }

    // The values of a word's bits.
    fn set_word(&mut self, lits: &[Lit], patterns: &[Numbers], word: Word) {
        for (i, lit) in lits.iter().enumerate() {
            if let Some(signature) = self.signatures.get_mut(lit.var() as usize) {
                *signature = bit_of(patterns, i, word);
            }
        }
    }

    // The values of a gate's variable, from those of its operands.
    fn set_gate(&mut self, gate: Gate) {
        let left = self.signature(gate.left);
        let right = self.signature(gate.right);
        if let Some(signature) = self.signatures.get_mut(gate.v as usize) {
            *signature = left.and(&right);
        }
    }

    // The key of a variable, which is after all lower ones.
    fn enter(&mut self, v: u32) -> Result<(), Memory> {
        let key = self.signature(Lit(v.wrapping_mul(2))).key();
        if let Some(entry) = self.keys.get_mut(v as usize) {
            *entry = key;
        }
        let class = self.class_of(key);
        if self.lowest.get(&class).is_none() {
            self.lowest.insert(class, v)?;
        }
        Ok(())
    }
}

// The level and the variable of the constant, the inputs and the gates, rising.
fn by_level(alloc: Global, graph: &Graph) -> Result<Vec<(u32, u32)>, Memory> {
    let mut order = Vec::new(alloc);
    order.push((0, 0))?;
    for lit in graph.input_literals() {
        order.push((0, lit.var()))?;
    }
    for gate in graph.gates() {
        if gate.v <= graph.max() {
            order.push((graph.level(gate.v), gate.v))?;
        }
    }
    order.sort_unstable();
    Ok(order)
}

// The values of a bit of a word.
fn bit_of(patterns: &[Numbers], place: usize, word: Word) -> Signature {
    let mut signature = Signature::zero();
    for (pattern, numbers) in patterns.iter().enumerate() {
        if has_bit(numbers, word, place) {
            signature.set(pattern);
        }
    }
    signature
}

// Whether a bit of a word is one.
fn has_bit(numbers: &Numbers, word: Word, place: usize) -> bool {
    match word {
        Word::A => place < 64 && (numbers.a >> place as u32) % 2 == 1,
        Word::B => place < 64 && (numbers.b >> place as u32) % 2 == 1,
        Word::C => place < 128 && (numbers.c >> place as u32) % 2 == 1,
    }
}

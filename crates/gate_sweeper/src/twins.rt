// Literals of models that other gates may equal.
use crate::cones::Cones;
use crate::patterns::Patterns;
use crate::rows::Rows;
use crate::swept::{Models, Swept};
use graph_core::{Gate, Lit, Memory};
use indexmap::IndexMap;
use stage_guesser::{Signature, WORDS};
use std::alloc::Global;

// So many inputs aren't many yet: drawn values of more seldom end in many zeros.
const FEW_INPUTS: usize = 40;

/// By row of a variable its values on some patterns of the inputs and the literal that it equals; and by operands and
/// by values the models. No answer depends on it.
///
/// A gate whose operands equal those of another one is true where that one is, by propagation alone. So it is joined
/// to it without lemmas, *unlogged*, until a gate that reads its negation needs them.
#[derive(Drop)]
pub(crate) struct Twins {
    models: Models,
    rows: Rows,
    signatures: Vec<Signature>,
    twins: Vec<Option<Lit>>,
    /// Whether what a variable equals isn't in the log.
    unlogged: Vec<bool>,
    /// How many operands of gates it is, as far as outputs depend on them.
    readers: Vec<u32>,
    /// How many gates weren't shown to equal it.
    missed: Vec<u32>,
    /// Whether an output depends on it.
    read: Vec<bool>,
    /// Whether it is a model that reads a gate that is none, or is read by one.
    crossed: Vec<bool>,
    /// Whether a model reads gates that are none.
    crosses: bool,
    /// Whether one does, and there are many inputs.
    crosses_widely: bool,
    by_operands: IndexMap<u64, u32>,
    by_values: IndexMap<u64, u32>,
    /// The first model with some values.
    first_by_values: IndexMap<u64, u32>,
    /// The key of the constant true.
    ones: u64,
    cones: Cones,
    /// How many lemmas showed nothing.
    spent: u64,
}

impl Twins {
    /// No twins, over gates that are swept.
    pub(crate) fn new(alloc: Global, swept: &Swept<'_>) -> Result<Twins, Memory> {
        let rows = Rows::new(alloc, swept.max, swept.gates)?;
        let count = rows.count();
        let crosses = has_crossing(swept, &rows);
        let crosses_widely = crosses && inputs(swept, &rows) > FEW_INPUTS;
        Ok(Twins {
            models: swept.models,
            rows,
            signatures: vec![in alloc; Signature::zero(); count]?,
            twins: vec![in alloc; None; count]?,
            unlogged: vec![in alloc; false; count]?,
            readers: vec![in alloc; 0; count]?,
            missed: vec![in alloc; 0; count]?,
            read: vec![in alloc; false; count]?,
            crossed: vec![in alloc; false; count]?,
            crosses,
            crosses_widely,
            by_operands: IndexMap::new(alloc),
            by_values: IndexMap::new(alloc),
            first_by_values: IndexMap::new(alloc),
            ones: Signature::zero().negated_if(true).key(),
            cones: Cones::new(alloc)?,
            spent: 0,
        })
    }

    /// Draws the values of a variable, unless it is the constant, a gate's, or has some.
    pub(crate) fn draw(&mut self, gates: &[Gate], variable: u32, patterns: &mut Patterns) {
        if variable == 0 || !self.is_input(gates, variable) {
            return;
        }
        if let Some(signature) = self.signatures.get_mut(self.rows.of(variable)) {
            if !signature.is(&Signature::zero()) {
                return;
            }
            for pattern in 0..WORDS * 64 {
                if patterns.value(variable, pattern) {
                    signature.set(pattern);
                }
            }
        }
    }

    /// Whether no gate has a variable.
    pub(crate) fn is_input(&self, gates: &[Gate], variable: u32) -> bool {
        self.rows.gate(gates, variable).is_none()
    }

    /// Sets the values of a gate by those of its operands.
    pub(crate) fn set(&mut self, gate: &Gate) {
        let values = self.values(gate.left).and(&self.values(gate.right));
        if let Some(signature) = self.signatures.get_mut(self.rows.of(gate.v)) {
            *signature = values;
        }
    }

    /// An output has a variable's value.
    pub(crate) fn read(&mut self, variable: u32) {
        if let Some(read) = self.read.get_mut(self.rows.of(variable)) {
            *read = true;
        }
    }

    /// Where an output depends on a gate, it depends on the gate's operands.
    pub(crate) fn read_operands(&mut self, gate: &Gate) {
        if self.is_read(gate) {
            for lit in [gate.left, gate.right] {
                self.read(lit.var());
                if let Some(readers) = self.readers.get_mut(self.rows.of(lit.var())) {
                    *readers = readers.saturating_add(1);
                }
            }
        }
    }

    /// Enters a model.
    pub(crate) fn enter(&mut self, gates: &[Gate], gate: &Gate) -> Result<(), Memory> {
        if let Some(lit) = self.folded(gate) {
            self.join(gate.v, lit);
        }
        let key = self.key_of(gate);
        if self.by_operands.get(&key).is_none() {
            self.by_operands.insert(key, gate.v)?;
        }
        if self.cross(gates, gate) {
            return Ok(());
        }
        let key = self.class_of(&self.values(plain(gate.v)));
        if self.first_by_values.get(&key).is_none() {
            self.first_by_values.insert(key, gate.v)?;
        }
        let is_first = match self.by_values.get(&key) {
            Some(first) => self.crosses && self.is_read(gate) && !self.is_read_at(*first),
            None => true,
        };
        if is_first {
            self.by_values.insert(key, gate.v)?;
        }
        Ok(())
    }

    // Whether a model reads gates that are none, and keeps that of all of them.
    fn cross(&mut self, gates: &[Gate], gate: &Gate) -> bool {
        let mut crosses = false;
        for lit in [gate.left, gate.right] {
            if is_other(self.models, &self.rows, gates, lit) {
                self.set_crossed(lit.var());
                self.set_crossed(gate.v);
                crosses = true;
            }
        }
        crosses
    }

    fn set_crossed(&mut self, variable: u32) {
        if let Some(crossed) = self.crossed.get_mut(self.rows.of(variable)) {
            *crossed = true;
        }
    }

    // Whether a gate is a model that reads one that is none, or is read by one.
    fn is_crossed(&self, gate: &Gate) -> bool {
        match self.crossed.get(self.rows.of(gate.v)) {
            Some(crossed) => *crossed,
            None => false,
        }
    }

    /// A model whose operands equal those of a gate: that of its number, if it is one.
    pub(crate) fn of_equal_operands(&self, gates: &[Gate], gate: &Gate) -> Option<Lit> {
        let key = self.key_of(gate);
        if let Some(own) = self.of_number(gates, gate) {
            if self.key_of(&own) == key {
                return Some(plain(own.v));
            }
        }
        Some(plain(*self.by_operands.get(&key)?))
    }

    /// A literal of a model with the values of a gate.
    pub(crate) fn of_equal_values(&self, gate: &Gate) -> Option<Lit> {
        if self.is_crossed(gate) {
            return None;
        }
        self.of_values(gate)
    }

    fn of_values(&self, gate: &Gate) -> Option<Lit> {
        let values = self.values(plain(gate.v));
        let lit = plain(*self.by_values.get(&self.class_of(&values))?);
        if self.values(lit).is(&values) {
            Some(lit)
        } else if self.values(lit.not()).is(&values) {
            Some(lit.not())
        } else {
            None
        }
    }

    /// Whether a model reads gates that are none.
    pub(crate) fn crosses(&self) -> bool {
        self.crosses
    }

    /// Whether one does, and there are many inputs.
    pub(crate) fn crosses_widely(&self) -> bool {
        self.crosses_widely
    }

    /// Whether a gate has one value on all patterns.
    pub(crate) fn is_constant(&self, gate: &Gate) -> bool {
        self.class_of(&self.values(plain(gate.v))) == self.class_of(&Signature::zero())
    }

    /// The earlier model with the values of one that reads other gates, where outputs depend on the first and not on this.
    pub(crate) fn of_stone(&self, gate: &Gate) -> Option<Lit> {
        if self.is_read(gate) || !self.is_crossed(gate) {
            return None;
        }
        let lit = self.of_values(gate)?;
        if lit.var() < gate.v && self.is_read_at(lit.var()) {
            Some(lit)
        } else {
            None
        }
    }

    /// The variables near two gates, the nearest last.
    pub(crate) fn near(&mut self, gates: &[Gate], one: u32, other: u32) -> Result<&[u32], Memory> {
        self.cones.near(&self.rows, gates, one, other)
    }

    /// The operand of a gate that more gates read.
    pub(crate) fn more_read(&self, gate: &Gate) -> u32 {
        let (left, right) = (gate.left.var(), gate.right.var());
        if self.readers(left) < self.readers(right) {
            right
        } else {
            left
        }
    }

    /// Keeps a literal that a variable equals.
    pub(crate) fn join(&mut self, variable: u32, lit: Lit) {
        if let Some(twin) = self.twins.get_mut(self.rows.of(variable)) {
            *twin = Some(lit);
        }
    }

    /// Keeps a literal that a variable equals, and that the log doesn't say so.
    pub(crate) fn join_unlogged(&mut self, variable: u32, lit: Lit) {
        self.join(variable, lit);
        self.set_unlogged(variable, true);
    }

    /// The log says now what a variable equals.
    pub(crate) fn set_logged(&mut self, variable: u32) {
        self.set_unlogged(variable, false);
    }

    /// The literal that a variable equals, if the log doesn't say so.
    pub(crate) fn unlogged(&self, variable: u32) -> Option<Lit> {
        match self.unlogged.get(self.rows.of(variable)) {
            Some(true) => Some(self.twin(plain(variable))),
            _ => None,
        }
    }

    /// Whether propagation derives from a literal the one that it equals.
    pub(crate) fn follows(&self, lit: Lit) -> bool {
        !lit.negated() || self.unlogged(lit.var()).is_none()
    }

    /// Counts lemmas that showed nothing.
    pub(crate) fn spend(&mut self, lemmas: u64) {
        self.spent = self.spent.saturating_add(lemmas);
    }

    pub(crate) fn spent(&self) -> u64 {
        self.spent
    }

    /// A gate wasn't shown to equal a variable.
    pub(crate) fn miss(&mut self, variable: u32) {
        if let Some(missed) = self.missed.get_mut(self.rows.of(variable)) {
            *missed = missed.saturating_add(1);
        }
    }

    /// How many gates weren't.
    pub(crate) fn missed(&self, variable: u32) -> u32 {
        match self.missed.get(self.rows.of(variable)) {
            Some(missed) => *missed,
            None => 0,
        }
    }

    /// Whether an output depends on a gate.
    pub(crate) fn is_read(&self, gate: &Gate) -> bool {
        self.is_read_at(gate.v)
    }

    /// Whether one depends on a variable.
    pub(crate) fn is_read_at(&self, variable: u32) -> bool {
        match self.read.get(self.rows.of(variable)) {
            Some(read) => *read,
            None => false,
        }
    }

    fn set_unlogged(&mut self, variable: u32, is: bool) {
        if let Some(unlogged) = self.unlogged.get_mut(self.rows.of(variable)) {
            *unlogged = is;
        }
    }

    fn readers(&self, variable: u32) -> u32 {
        match self.readers.get(self.rows.of(variable)) {
            Some(readers) => *readers,
            None => 0,
        }
    }

    /// The literal that a gate equals by propagation alone: one operand is a constant, or both are of one variable.
    pub(crate) fn folded(&self, gate: &Gate) -> Option<Lit> {
        let (left, right) = (gate.left, gate.right);
        if left.0 == 0 || right.0 == 0 || left == right.not() {
            return Some(Lit(0));
        }
        if left.0 == 1 || left == right {
            return Some(self.twin(right));
        }
        if right.0 == 1 {
            return Some(self.twin(left));
        }
        None
    }

    // The literal that a literal was shown to equal, else itself.
    fn twin(&self, lit: Lit) -> Lit {
        match self.twins.get(self.rows.of(lit.var())) {
            Some(Some(twin)) if lit.negated() => twin.not(),
            Some(Some(twin)) => *twin,
            _ => lit,
        }
    }

    /// The model that a gate's turn comes after: its candidate; or, where there are many inputs, the first one with its
    /// values or those of their negation, on which no output may depend.
    pub(crate) fn awaited(&self, gate: &Gate) -> Option<u32> {
        let candidate = self.of_equal_values(gate)?;
        if self.crosses_widely {
            let values = self.values(plain(gate.v));
            self.first_by_values.get(&self.class_of(&values)).copied()
        } else {
            Some(candidate.var())
        }
    }

    // The model with the number of a gate.
    fn of_number(&self, gates: &[Gate], gate: &Gate) -> Option<Gate> {
        let own = self.rows.gate(gates, self.models.of_number(gate.v)?)?;
        if self.models.has(&own) {
            Some(own)
        } else {
            None
        }
    }

    // The literals that both operands of a gate equal, in one number.
    fn key_of(&self, gate: &Gate) -> u64 {
        operands(self.twin(gate.left), self.twin(gate.right))
    }

    fn values(&self, lit: Lit) -> Signature {
        match self.signatures.get(self.rows.of(lit.var())) {
            Some(signature) => signature.negated_if(lit.negated()),
            None => Signature::zero(),
        }
    }

    // The lesser one of the keys of some values and their negation.
    fn class_of(&self, values: &Signature) -> u64 {
        let key = values.key();
        key.min(key ^ self.ones)
    }
}

// How many inputs are read. A row that is no gate's is an input's or the constant's.
fn inputs(swept: &Swept<'_>, rows: &Rows) -> usize {
    rows.count()
        .saturating_sub(swept.gates.len())
        .saturating_sub(1)
}

// Whether some model reads a gate that is none.
fn has_crossing(swept: &Swept<'_>, rows: &Rows) -> bool {
    swept.gates.iter().any(|gate| {
        swept.models.has(gate)
            && (is_other(swept.models, rows, swept.gates, gate.left)
                || is_other(swept.models, rows, swept.gates, gate.right))
    })
}

// Whether a literal is of a gate that is no model.
fn is_other(models: Models, rows: &Rows, gates: &[Gate], lit: Lit) -> bool {
    match rows.gate(gates, lit.var()) {
        Some(gate) => !models.has(&gate),
        None => false,
    }
}

fn plain(variable: u32) -> Lit {
    Lit(variable.wrapping_mul(2))
}

// Both operands of a gate in one number, the lesser one first.
fn operands(left: Lit, right: Lit) -> u64 {
    ((left.0.min(right.0) as u64) << 32) | left.0.max(right.0) as u64
}

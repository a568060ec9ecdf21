// The lines of facts: a variable times the negation of what follows from it.
use crate::facts::{Fact, Facts, Rule};
use crate::polynomials::{MINUS_ONE, Term, literal, one, times, variable};
use gate_axioms::Draft;
use graph_core::{Gate, Lit, Memory};
use indexmap::IndexMap;
use std::alloc::Global;

// No more facts are asked for by one another.
const LONGEST: usize = 1 << 16;

/// The drafts so far, and which of them are facts' lines.
#[derive(Drop)]
pub(crate) struct Drafts {
    alloc: Global,
    pub(crate) all: Vec<Draft>,
    /// how many lines are known before the first draft's
    axioms: usize,
    /// by variable: the place of its gate's axiom
    gates: Vec<usize>,
    /// by a fact's variable and literal the place of its line
    places: IndexMap<(u32, u32), usize>,
}

impl Drafts {
    /// No draft after so many axioms, those of the gates first.
    pub(crate) fn new(
        alloc: Global,
        gates: &[Gate],
        max: u32,
        axioms: usize,
    ) -> Result<Drafts, Memory> {
        let mut places = vec![in alloc; 0usize; max as usize + 1]?;
        for (place, gate) in gates.iter().enumerate() {
            if let Some(known) = places.get_mut(gate.v as usize) {
                *known = place;
            }
        }
        Ok(Drafts {
            alloc,
            all: Vec::new(alloc),
            axioms,
            gates: places,
            places: IndexMap::new(alloc),
        })
    }

    /// The place of a gate's axiom.
    pub(crate) fn gate(&self, v: u32) -> usize {
        match self.gates.get(v as usize) {
            Some(place) => *place,
            None => 0,
        }
    }

    /// One draft more, and the place of its line.
    pub(crate) fn push(&mut self, draft: Draft) -> Result<usize, Memory> {
        let place = self.axioms.saturating_add(self.all.len());
        self.all.push(draft)?;
        Ok(place)
    }

    /// The place of a fact's line, which is drafted where it isn't there, with all that it takes. None where it is
    /// none.
    pub(crate) fn fact(
        &mut self,
        facts: &mut Facts<'_>,
        v: u32,
        lit: Lit,
    ) -> Result<Option<usize>, Memory> {
        let mut wanted = Vec::new(self.alloc);
        wanted.push((v, lit))?;
        for _ in 0..LONGEST {
            let Some((of, last)) = wanted.pop() else {
                break;
            };
            if self.known(of, last).is_none() && !self.take(facts, &mut wanted, of, last)? {
                return Ok(None);
            }
        }
        Ok(self.known(v, lit))
    }

    // Drafts a fact's line, or wants it again after those that it takes. Whether it is a fact.
    fn take(
        &mut self,
        facts: &mut Facts<'_>,
        wanted: &mut Vec<(u32, Lit)>,
        v: u32,
        lit: Lit,
    ) -> Result<bool, Memory> {
        let Some(reason) = reason_of(self.alloc, facts, v, lit)? else {
            return Ok(false);
        };
        if !self.wants(wanted, v, lit, &reason)? {
            self.push_fact(v, lit, reason)?;
        }
        Ok(true)
    }

    // Whether lines that a fact's line takes aren't there yet. These are wanted before it then.
    fn wants(
        &self,
        wanted: &mut Vec<(u32, Lit)>,
        v: u32,
        lit: Lit,
        reason: &Reason,
    ) -> Result<bool, Memory> {
        let mut is_wanting = false;
        for (lemma, _) in reason.lemmas.iter() {
            if self.known(lemma.0, lemma.1).is_none() {
                if !is_wanting {
                    wanted.push((v, lit))?;
                }
                is_wanting = true;
                wanted.push(*lemma)?;
            }
        }
        Ok(is_wanting)
    }

    // The place of a fact's line, if it was drafted.
    fn known(&self, v: u32, lit: Lit) -> Option<usize> {
        self.places.get(&(v, lit.0)).copied()
    }

    // The draft of a fact's line, from those of others.
    fn push_fact(&mut self, v: u32, lit: Lit, reason: Reason) -> Result<(), Memory> {
        let mut parts = Vec::new(self.alloc);
        let axiom = self.gate(reason.gate);
        parts.push((axiom, reason.factor))?;
        for ((of, lit), factor) in reason.lemmas {
            if let Some(place) = self.known(of, lit) {
                parts.push((place, factor))?;
            }
        }
        // the axioms' places are below those of lines
        parts.sort_unstable_by_key(|part| part.0);
        let place = self.push(Draft { parts })?;
        self.places.insert((v, lit.0), place)?;
        Ok(())
    }
}

// What a fact's line is made of.
#[derive(Drop)]
struct Reason {
    alloc: Global,
    gate: u32,
    /// what the gate's axiom is taken times
    factor: Vec<Term>,
    /// facts, and what their lines are taken times
    lemmas: Vec<((u32, Lit), Vec<Term>)>,
}

impl Reason {
    // Takes the line of one more fact, unless it is 0 as it stands, times a factor, unless that is.
    fn take(&mut self, v: u32, lit: Lit, factor: Vec<Term>) -> Result<(), Memory> {
        let is_nothing = lit.0 == 1 || (lit.var() == v && !lit.negated());
        if !is_nothing && !factor.is_empty() {
            self.lemmas.push(((v, lit), factor))?;
        }
        Ok(())
    }

    // By a gate that is true: its operand is.
    fn set_operand(&mut self, v: u32, operand: Lit, gate: Gate) -> Result<(), Memory> {
        let negation = literal(self.alloc, operand.not())?;
        self.factor = times(self.alloc, &negation, MINUS_ONE, &[v])?;
        self.take(v, Lit(gate.v.wrapping_mul(2)), negation)
    }

    // By an operand that is false, the left one or the right one: the gate is.
    fn set_false_operand(&mut self, v: u32, is_left: bool, gate: Gate) -> Result<(), Memory> {
        let (first, other) = if is_left {
            (gate.left, gate.right)
        } else {
            (gate.right, gate.left)
        };
        let one = one(self.alloc)?;
        self.factor = times(self.alloc, &one, MINUS_ONE, &[v])?;
        self.take(v, first.not(), literal(self.alloc, other)?)
    }

    // By two operands that are true: the gate is.
    fn set_true_operands(&mut self, v: u32, gate: Gate) -> Result<(), Memory> {
        self.factor = variable(self.alloc, v)?;
        self.take(v, gate.left, one(self.alloc)?)?;
        self.take(v, gate.right, literal(self.alloc, gate.left)?)
    }

    // By a gate that is false and an operand that is true: the other one is false.
    fn set_other_operand(&mut self, v: u32, lit: Lit, gate: Gate) -> Result<(), Memory> {
        let (first, other) = if lit.0 == gate.right.not().0 {
            (gate.left, gate.right)
        } else {
            (gate.right, gate.left)
        };
        self.factor = variable(self.alloc, v)?;
        self.take(v, first, literal(self.alloc, other)?)?;
        self.take(v, Lit(gate.v.wrapping_mul(2)).not(), one(self.alloc)?)
    }
}

// What the line of a fact is made of, if it is one.
fn reason_of(
    alloc: Global,
    facts: &mut Facts<'_>,
    v: u32,
    lit: Lit,
) -> Result<Option<Reason>, Memory> {
    if let Some(shorter) = through_operand(alloc, facts, v, lit)? {
        return Ok(Some(shorter));
    }
    let Some(fact) = facts.find(v, lit)? else {
        return Ok(None);
    };
    let Some(gate) = facts.gate(fact.gate) else {
        return Ok(None);
    };
    let reason = by_rule(alloc, facts, v, fact, gate)?;
    Ok(Some(reason))
}

// By an operand of the variable's gate from which the literal follows: v is w B, so v (1 - l) is w (1 - l) B, minus the
// axiom times (1 - l).
fn through_operand(
    alloc: Global,
    facts: &mut Facts<'_>,
    v: u32,
    lit: Lit,
) -> Result<Option<Reason>, Memory> {
    let Some(gate) = facts.gate(v) else {
        return Ok(None);
    };
    if gate.left.var() == gate.right.var() {
        return Ok(None);
    }
    for (operand, other) in [(gate.left, gate.right), (gate.right, gate.left)] {
        let w = operand.var();
        if operand.0 == lit.0 || (!operand.negated() && facts.find(w, lit)?.is_some()) {
            let factor = times(alloc, &literal(alloc, lit.not())?, MINUS_ONE, &[])?;
            let mut reason = Reason {
                alloc,
                gate: v,
                factor,
                lemmas: Vec::new(alloc),
            };
            if operand.0 != lit.0 {
                reason.take(w, lit, literal(alloc, other)?)?;
            }
            return Ok(Some(reason));
        }
    }
    Ok(None)
}

// By the rule by which it was found.
fn by_rule(
    alloc: Global,
    facts: &mut Facts<'_>,
    v: u32,
    fact: Fact,
    gate: Gate,
) -> Result<Reason, Memory> {
    let mut reason = Reason {
        alloc,
        gate: gate.v,
        factor: Vec::new(alloc),
        lemmas: Vec::new(alloc),
    };
    match fact.rule {
        Rule::Operand => reason.set_operand(v, fact.lit, gate)?,
        Rule::FalseOperand => {
            let is_left = was_before(facts, v, gate.left.not(), fact.place)?;
            reason.set_false_operand(v, is_left, gate)?;
        }
        Rule::TrueOperands => reason.set_true_operands(v, gate)?,
        Rule::OtherOperand => reason.set_other_operand(v, fact.lit, gate)?,
    }
    Ok(reason)
}

// Whether a literal follows and was found before a place.
fn was_before(facts: &mut Facts<'_>, v: u32, lit: Lit, place: usize) -> Result<bool, Memory> {
    if lit.0 == 1 {
        return Ok(true);
    }
    match facts.find(v, lit)? {
        Some(fact) => Ok(fact.place < place),
        None => Ok(false),
    }
}

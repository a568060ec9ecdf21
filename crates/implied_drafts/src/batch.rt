// Parts of a line that is gathered, all divided by one power of two.
use crate::lemmas::Drafts;
use crate::polynomials::Term;
use gate_axioms::Draft;
use graph_core::Memory;
use std::alloc::Global;
use std::mem;

// A batch ends once its factors have more terms than this.
const MOST_TERMS: usize = 1 << 16;

// Or once its line may be as long: with one part more it stays below the limit of a line.
const MOST_BYTES: u64 = 12 << 20;

/// What a line takes: gates' axioms and facts' lines, each times a factor.
#[derive(Drop)]
pub(crate) struct Batch {
    alloc: Global,
    /// gates' variables, each once
    gates: Vec<(u32, Vec<Term>)>,
    /// places of facts' lines, each with a term of its factor: the variables and the coefficient
    facts: Vec<(usize, Vec<u32>, u128)>,
    /// its parts are divided by 2 to this power
    pub(crate) power: u32,
    terms: usize,
    bytes: u64,
    /// places of the batches' lines, and what a last line takes each times
    lines: Vec<(usize, u128)>,
}

impl Batch {
    /// No part; the first one may be divided by at most this power.
    pub(crate) fn new(alloc: Global, power: u32) -> Batch {
        Batch {
            alloc,
            gates: Vec::new(alloc),
            facts: Vec::new(alloc),
            power,
            terms: 0,
            bytes: 0,
            lines: Vec::new(alloc),
        }
    }

    /// Takes a gate's axiom times a factor, whose text has so many bytes.
    pub(crate) fn take_gate(
        &mut self,
        v: u32,
        factor: Vec<Term>,
        bytes: u64,
    ) -> Result<(), Memory> {
        self.count(factor.len(), bytes);
        self.gates.push((v, factor))?;
        Ok(())
    }

    /// Takes a fact's line times a term.
    pub(crate) fn take_fact(
        &mut self,
        place: usize,
        variables: Vec<u32>,
        coefficient: u128,
        bytes: u64,
    ) -> Result<(), Memory> {
        self.count(1, bytes);
        self.facts.push((place, variables, coefficient))?;
        Ok(())
    }

    fn count(&mut self, terms: usize, bytes: u64) {
        self.terms = self.terms.saturating_add(terms);
        self.bytes = self.bytes.saturating_add(bytes);
    }

    /// Whether it is long, where what it states has at most so many bytes.
    pub(crate) fn is_long(&self, stated: u64) -> bool {
        self.terms > MOST_TERMS || self.bytes.saturating_add(stated) > MOST_BYTES
    }

    /// Drafts the line of the parts so far, if there are any.
    pub(crate) fn end(&mut self, drafts: &mut Drafts, mask: u128) -> Result<(), Memory> {
        if self.gates.is_empty() && self.facts.is_empty() {
            return Ok(());
        }
        let mut gates = mem::replace(&mut self.gates, Vec::new(self.alloc));
        gates.sort_unstable_by_key(|part| part.0);
        let mut parts = Vec::new(self.alloc);
        for (v, factor) in gates {
            parts.push((drafts.gate(v), factor))?;
        }
        let mut facts = mem::replace(&mut self.facts, Vec::new(self.alloc));
        facts.sort_unstable();
        push_facts(self.alloc, &mut parts, facts, mask)?;
        if !parts.is_empty() {
            let place = drafts.push(Draft { parts })?;
            self.lines.push((place, power_of(self.power)))?;
        }
        self.terms = 0;
        self.bytes = 0;
        Ok(())
    }

    /// Drafts the last line: these lines and those of the batches, each times a number.
    pub(crate) fn end_all(
        &mut self,
        drafts: &mut Drafts,
        columns: Vec<(usize, u128)>,
        mask: u128,
    ) -> Result<(), Memory> {
        self.end(drafts, mask)?;
        if columns.is_empty() && matches!(self.lines.as_slice(), [(_, 1)]) {
            return Ok(());
        }
        let mut parts = Vec::new(self.alloc);
        for (place, weight) in columns {
            parts.push((place, number(self.alloc, weight)?))?;
        }
        for (place, weight) in self.lines.iter() {
            parts.push((*place, number(self.alloc, *weight)?))?;
        }
        drafts.push(Draft { parts })?;
        Ok(())
    }
}

// Adds the facts' parts, from terms in the order of their places and variables.
fn push_facts(
    alloc: Global,
    parts: &mut Vec<(usize, Vec<Term>)>,
    facts: Vec<(usize, Vec<u32>, u128)>,
    mask: u128,
) -> Result<(), Memory> {
    let mut place = 0;
    let mut factor: Vec<Term> = Vec::new(alloc);
    for (next, variables, coefficient) in facts {
        if next != place {
            push_part(alloc, parts, place, &mut factor)?;
            place = next;
        }
        push_term(&mut factor, variables, coefficient, mask)?;
    }
    push_part(alloc, parts, place, &mut factor)
}

// One part more, unless its factor is 0.
fn push_part(
    alloc: Global,
    parts: &mut Vec<(usize, Vec<Term>)>,
    place: usize,
    factor: &mut Vec<Term>,
) -> Result<(), Memory> {
    let mut terms = mem::replace(factor, Vec::new(alloc));
    terms.retain(|term| term.0 != 0);
    if !terms.is_empty() {
        parts.push((place, terms))?;
    }
    Ok(())
}

// One term more, or more of the last one.
fn push_term(
    factor: &mut Vec<Term>,
    variables: Vec<u32>,
    coefficient: u128,
    mask: u128,
) -> Result<(), Memory> {
    if let Some(last) = factor.last_mut() {
        if last.1.as_slice() == variables.as_slice() {
            last.0 = last.0.wrapping_add(coefficient) & mask;
            return Ok(());
        }
    }
    factor.push((coefficient, variables))?;
    Ok(())
}

fn number(alloc: Global, weight: u128) -> Result<Vec<Term>, Memory> {
    crate::polynomials::constant(alloc, weight)
}

// 2 to a power.
fn power_of(power: u32) -> u128 {
    if power < 128 { 1 << power } else { 0 }
}

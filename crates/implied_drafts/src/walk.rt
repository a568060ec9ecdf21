// The steps of a plan, in normal monomials.
use crate::batch::Batch;
use crate::facts::Facts;
use crate::frontier::Frontier;
use crate::lemmas::Drafts;
use crate::monomials::{joined, monomial_of, without};
use crate::normal::{Normal, Use, are_related};
use crate::polynomials::{MINUS_ONE, Term, operands_of};
use crate::products::{Product, products_of};
use crate::shapes::wide_products;
use crate::waiting::Waiting;
use frontier_core::Step;
use gate_axioms::Draft;
use graph_core::{Gate, Memory, Operands};
use poly_terms::Terms;
use ripple_graft::Extended;
use std::alloc::Global;

// A frontier with a longer text is passed: lines have a limit.
const MOST_FRONTIER_BYTES: u64 = 4 << 20;

// So are more bytes of factors.
const MOST_BYTES: u64 = 1 << 27;

// The greatest exponent of a table's modulus.
const MOST_EXPONENT: u32 = 128;

// So many columns share a line: a power of two that parts are divided by is a multiple of it.
const COLUMNS: u32 = 4;

/// When a monomial is made normal.
#[derive(Clone, Copy, Debug, PartialEq, Eq)]
pub(crate) enum When {
    /// as it arises
    AtOnce,
    /// when a gate is taken by which its pairs don't cancel
    Late,
}

/// What there is after some steps.
#[derive(Drop)]
pub(crate) struct Walk<'a> {
    alloc: Global,
    extended: &'a Extended<'a>,
    when: When,
    mask: u128,
    frontier: Frontier,
    facts: Facts<'a>,
    waiting: Waiting,
    batch: Batch,
    drafts: Drafts,
    /// places of replaced columns' axioms, and their weights
    columns: Vec<(usize, u128)>,
    /// how long the frontier's text was when the open batch began
    before: u64,
    /// how long all factors' texts are
    bytes: u64,
}

impl<'a> Walk<'a> {
    /// Before the first step.
    pub(crate) fn new(
        alloc: Global,
        extended: &'a Extended<'a>,
        when: When,
    ) -> Result<Walk<'a>, Memory> {
        let exponent = extended.graph().outputs();
        let max = extended.max();
        let gates = extended.gates();
        let mut columns = Vec::new(alloc);
        let mut weight = 1u128;
        for k in 0..exponent {
            if extended.replaced(k) {
                columns.push((gates.len().saturating_add(columns.len()), weight))?;
            }
            weight = weight.wrapping_mul(2);
        }
        let axioms = gates.len().saturating_add(columns.len());
        let frontier = Frontier::new(alloc, max, exponent)?;
        let mut facts = Facts::new(alloc, extended)?;
        if when == When::AtOnce {
            let products = wide_products(alloc, &facts, gates, max)?;
            facts.set_products(products);
        }
        Ok(Walk {
            alloc,
            extended,
            when,
            mask: frontier.opposite(1),
            facts,
            waiting: Waiting::new(alloc, max)?,
            batch: Batch::new(alloc, exponent.saturating_sub(1)),
            drafts: Drafts::new(alloc, gates, max, axioms)?,
            frontier,
            columns,
            before: 0,
            bytes: 0,
        })
    }

    /// Takes all steps, and tells whether all frontiers stay within the budget.
    pub(crate) fn take_all(
        &mut self,
        operands: &Operands,
        steps: &[Step],
        budget: u64,
        most: usize,
    ) -> Result<bool, Memory> {
        for step in steps {
            match *step {
                Step::Add(k) => self.add_column(operands, k)?,
                Step::Eliminate(v) => {
                    if let Some(gate) = self.facts.gate(v) {
                        self.meet(gate)?;
                    }
                }
            }
            self.frontier.settle()?;
            if self.has_passed(budget) || self.drafts.all.len() >= most {
                return Ok(false);
            }
        }
        self.take_waiting()?;
        Ok(!self.has_passed(budget))
    }

    // Takes a gate, after those that wait and read it, unless it waits from now on.
    fn meet(&mut self, gate: Gate) -> Result<(), Memory> {
        if self.facts.is_product(gate.v) {
            return self.waiting.push(gate);
        }
        if self.waiting.reads(gate.v) {
            self.take_waiting()?;
        }
        self.eliminate(gate)
    }

    // Takes the gates that wait, until a frontier is too long.
    fn take_waiting(&mut self) -> Result<(), Memory> {
        let gates = self.waiting.end();
        let (alloc, facts, frontier) = (self.alloc, &self.facts, &self.frontier);
        let products = products_of(alloc, facts, frontier, &mut self.drafts, gates)?;
        for product in products.iter() {
            if !self.has_passed(u64::MAX) {
                self.take_product(product)?;
            }
        }
        Ok(())
    }

    // Takes a product, by its gate's axiom or by the line that states it.
    fn take_product(&mut self, product: &Product) -> Result<(), Memory> {
        let Some(place) = product.place else {
            return self.eliminate(product.gate);
        };
        let taken = self.frontier.with(product.gate.v)?;
        self.set_power(&taken)?;
        for number in taken.iter() {
            self.put_variables(*number, product, place)?;
        }
        self.end_long()
    }

    // Puts the variables of a product in place of its gate's in a monomial.
    fn put_variables(
        &mut self,
        number: usize,
        product: &Product,
        place: usize,
    ) -> Result<(), Memory> {
        let coefficient = self.frontier.coefficient(number);
        let opposite = self.frontier.opposite(coefficient);
        let rest = without(self.alloc, self.frontier.variables(number), product.gate.v)?;
        let all = joined(self.alloc, &rest, &product.variables)?;
        self.frontier.put(number, opposite);
        self.frontier.add(all, coefficient)?;
        let divided = self.frontier.divided(opposite, self.batch.power);
        let length = self.frontier.length(divided, rest.len());
        self.bytes = self.bytes.saturating_add(length);
        self.batch.take_fact(place, rest, divided, length)
    }

    // Whether too much is left, or kept.
    fn has_passed(&self, budget: u64) -> bool {
        self.frontier.size() > budget
            || self.frontier.bytes() > MOST_FRONTIER_BYTES
            || self.bytes > MOST_BYTES
    }

    /// The drafts of all lines.
    pub(crate) fn into_drafts(self) -> Result<Vec<Draft>, Memory> {
        let Walk {
            mut batch,
            mut drafts,
            columns,
            mask,
            ..
        } = self;
        batch.end_all(&mut drafts, columns, mask)?;
        Ok(drafts.all)
    }

    // Adds a column.
    fn add_column(&mut self, operands: &Operands, k: u32) -> Result<(), Memory> {
        for (coefficient, variables) in column(self.alloc, self.extended, operands, k)? {
            let monomial = monomial_of(self.alloc, &variables)?;
            self.frontier.add(monomial, coefficient)?;
        }
        Ok(())
    }

    // Puts the product of a gate's operands in place of its variable.
    fn eliminate(&mut self, gate: Gate) -> Result<(), Memory> {
        let taken = self.frontier.with(gate.v)?;
        if taken.is_empty() {
            return Ok(());
        }
        self.set_power(&taken)?;
        if self.when == When::Late {
            self.tighten(&taken, gate.v)?;
        }
        self.substitute(gate)
    }

    // Takes the part of a gate, as its monomials stand.
    fn substitute(&mut self, gate: Gate) -> Result<(), Memory> {
        let taken = self.frontier.with(gate.v)?;
        let operands = operands_of(self.alloc, &gate)?;
        let mut factor = Vec::new(self.alloc);
        let mut bytes = 0;
        for number in taken.iter() {
            let rest = without(self.alloc, self.frontier.variables(*number), gate.v)?;
            let divided = self.put_products(*number, &rest, &operands)?;
            let length = self.frontier.length(divided, rest.len());
            bytes = length.saturating_add(bytes);
            factor.push((divided, rest))?;
        }
        self.bytes = self.bytes.saturating_add(bytes);
        self.take_part(gate.v, factor, bytes)
    }

    // Puts products in place of a monomial. The number by which the gate's axiom is taken, times the rest.
    fn put_products(
        &mut self,
        number: usize,
        rest: &[u32],
        operands: &[Term],
    ) -> Result<u128, Memory> {
        let coefficient = self.frontier.coefficient(number);
        let opposite = self.frontier.opposite(coefficient);
        self.frontier.put(number, opposite);
        for (sign, more) in operands {
            self.put_product(rest, more, sign.wrapping_mul(coefficient) & self.mask)?;
        }
        Ok(self.frontier.divided(opposite, self.batch.power))
    }

    // One part more.
    fn take_part(&mut self, v: u32, factor: Vec<Term>, bytes: u64) -> Result<(), Memory> {
        self.batch.take_gate(v, factor, bytes)?;
        self.end_long()
    }

    // Ends the open batch where it is long.
    fn end_long(&mut self) -> Result<(), Memory> {
        let stated = self.before.saturating_add(self.frontier.bytes());
        if self.batch.is_long(stated) {
            self.end_batch()?;
        }
        Ok(())
    }

    // Ends the open batch.
    fn end_batch(&mut self) -> Result<(), Memory> {
        self.batch.end(&mut self.drafts, self.mask)?;
        self.before = self.frontier.bytes();
        Ok(())
    }

    // Ends the open batch where these terms are divided by another power of two.
    fn set_power(&mut self, taken: &[usize]) -> Result<(), Memory> {
        let most = self.batch.power;
        let mut power = most;
        for number in taken {
            power = power.min(self.frontier.coefficient(*number).trailing_zeros());
        }
        if power < most {
            self.end_batch()?;
            self.batch.power = power / COLUMNS * COLUMNS;
        }
        Ok(())
    }

    // Makes monomials normal, but for pairs that cancel when a gate is taken.
    fn tighten(&mut self, numbers: &[usize], v: u32) -> Result<(), Memory> {
        for number in numbers {
            if self.frontier.is_loose(*number) {
                self.tighten_one(*number, v)?;
            }
        }
        Ok(())
    }

    fn tighten_one(&mut self, number: usize, v: u32) -> Result<(), Memory> {
        let coefficient = self.frontier.coefficient(number);
        let mut all = Vec::new(self.alloc);
        all.extend_from_slice(self.frontier.variables(number))?;
        let normal = Normal::of(self.alloc, &mut self.facts, &[], &all, Some(v))?;
        if normal.uses.is_empty() {
            return Ok(());
        }
        self.frontier
            .put(number, self.frontier.opposite(coefficient));
        self.put_normal(normal, coefficient, true)
    }

    // Adds a coefficient times a normal monomial and some variables.
    fn put_product(&mut self, rest: &[u32], more: &[u32], coefficient: u128) -> Result<(), Memory> {
        match self.when {
            When::AtOnce => {
                let normal = Normal::of(self.alloc, &mut self.facts, rest, more, None)?;
                self.put_normal(normal, coefficient, false)
            }
            When::Late => {
                let product = joined(self.alloc, rest, more)?;
                let (number, is_new) = self.frontier.add(product, coefficient)?;
                if is_new && are_related(&mut self.facts, rest, more)? {
                    self.frontier.set_loose(number);
                }
                Ok(())
            }
        }
    }

    // Adds a coefficient times what a monomial is on every evaluation.
    fn put_normal(
        &mut self,
        normal: Normal,
        coefficient: u128,
        is_loose: bool,
    ) -> Result<(), Memory> {
        for used in normal.uses {
            self.take_fact(used, coefficient)?;
        }
        if normal.vanishes {
            return Ok(());
        }
        let monomial = monomial_of(self.alloc, &normal.variables)?;
        let (number, _) = self.frontier.add(monomial, coefficient)?;
        if is_loose {
            self.frontier.set_loose(number);
        }
        Ok(())
    }

    // Takes the line of a fact by which a monomial with a coefficient changed.
    fn take_fact(&mut self, used: Use, coefficient: u128) -> Result<(), Memory> {
        let signed = if used.lit.negated() {
            coefficient
        } else {
            coefficient.wrapping_mul(MINUS_ONE) & self.mask
        };
        let divided = self.frontier.divided(signed, self.batch.power);
        let length = self.frontier.length(divided, used.beside.len());
        if let Some(place) = self.drafts.fact(&mut self.facts, used.from, used.lit)? {
            self.batch.take_fact(place, used.beside, divided, length)?;
        }
        self.bytes = self.bytes.saturating_add(length);
        Ok(())
    }
}

// The terms of a column, which has its new output where it is replaced.
fn column(
    alloc: Global,
    extended: &Extended<'_>,
    operands: &Operands,
    k: u32,
) -> Result<Vec<Term>, Memory> {
    let mut column = Vec::new(alloc);
    let outputs = extended.graph().outputs();
    if k >= outputs || outputs > MOST_EXPONENT {
        return Ok(column);
    }
    let mut terms = Terms::new(alloc, outputs);
    let poly = gate_axioms::column_poly(alloc, &mut terms, extended, operands, k)?;
    for place in 0..terms.size(&poly) {
        let mut variables = Vec::new(alloc);
        variables.extend_from_slice(terms.vars(&poly, place))?;
        column.push((terms.coefficient(&poly, place), variables))?;
    }
    Ok(column)
}

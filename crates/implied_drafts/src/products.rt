// The products that gates are, of all variables that stand below them, and the lines that state that.
use crate::facts::Facts;
use crate::frontier::Frontier;
use crate::lemmas::Drafts;
use crate::polynomials::Term;
use gate_axioms::Draft;
use graph_core::{Gate, Memory};
use indexmap::{IndexMap, IndexSet};
use std::alloc::Global;

// A product of more variables is one of two, and so is each that is made of it.
const MOST_VARIABLES: usize = 256;

// So are all where products have more variables together.
const MOST_IN_ALL: usize = 1 << 20;

/// A gate that is a product.
#[derive(Drop)]
pub(crate) struct Product {
    pub(crate) gate: Gate,
    /// which of them is taken first: those of two operands that are themselves such ones, the highest first, then
    /// those of the fewest variables
    turn: (usize, u32),
    /// its variables, rising
    pub(crate) variables: Vec<u32>,
    /// the place of the line that states the product minus the gate's variable; none where the gate's axiom does
    pub(crate) place: Option<usize>,
}

/// The products that some gates are, those that read one another after those that they read, in the order in which
/// their variables go. Only those count that monomials have, and those that these are made of.
pub(crate) fn products_of(
    alloc: Global,
    facts: &Facts<'_>,
    frontier: &Frontier,
    drafts: &mut Drafts,
    gates: Vec<Gate>,
) -> Result<Vec<Product>, Memory> {
    let needed = needed_of(alloc, frontier, &gates)?;
    let mut products = Products::new(alloc);
    for gate in gates.iter().rev() {
        if needed.contains(&gate.v) {
            products.push(facts, drafts, *gate)?;
        }
    }
    let mut all = products.all;
    all.sort_unstable_by_key(|product| product.turn);
    Ok(all)
}

// The variables of gates that monomials have, and of what these read. Gates come before those that they read.
fn needed_of(alloc: Global, frontier: &Frontier, gates: &[Gate]) -> Result<IndexSet<u32>, Memory> {
    let mut needed = IndexSet::new(alloc);
    for gate in gates {
        if frontier.has(gate.v) || needed.contains(&gate.v) {
            needed.insert(gate.v)?;
            needed.insert(gate.left.var())?;
            needed.insert(gate.right.var())?;
        }
    }
    Ok(needed)
}

// The products so far.
#[derive(Drop)]
struct Products {
    alloc: Global,
    all: Vec<Product>,
    /// by a gate's variable: its place in the list
    known: IndexMap<u32, usize>,
    /// how many variables they have together
    size: usize,
}

impl Products {
    fn new(alloc: Global) -> Products {
        Products {
            alloc,
            all: Vec::new(alloc),
            known: IndexMap::new(alloc),
            size: 0,
        }
    }

    // One product more. Those that its gate reads are there.
    fn push(&mut self, facts: &Facts<'_>, drafts: &mut Drafts, gate: Gate) -> Result<(), Memory> {
        let level = facts.level(gate.v);
        let product = match self.variables_of(gate)? {
            Some(variables) => Product {
                gate,
                turn: (variables.len(), level),
                place: self.line(drafts, gate)?,
                variables,
            },
            None => Product {
                gate,
                turn: (0, u32::MAX - level),
                place: None,
                variables: Vec::new(self.alloc),
            },
        };
        self.known.insert(gate.v, self.all.len())?;
        self.all.push(product)?;
        Ok(())
    }

    // The variables of a gate's product, unless there are too many.
    fn variables_of(&mut self, gate: Gate) -> Result<Option<Vec<u32>>, Memory> {
        let mut variables = Vec::new(self.alloc);
        if !self.join(&mut variables, gate.left.var())?
            || !self.join(&mut variables, gate.right.var())?
        {
            return Ok(None);
        }
        let size = self.size.saturating_add(variables.len());
        if variables.len() > MOST_VARIABLES || size > MOST_IN_ALL {
            return Ok(None);
        }
        self.size = size;
        variables.sort_unstable();
        Ok(Some(variables))
    }

    // Adds the variables of an operand. Whether they aren't too many.
    fn join(&self, variables: &mut Vec<u32>, v: u32) -> Result<bool, Memory> {
        let Some(product) = self.product(v) else {
            if !variables.contains(&v) {
                variables.push(v)?;
            }
            return Ok(true);
        };
        for u in product.variables.iter() {
            if !variables.contains(u) {
                variables.push(*u)?;
            }
        }
        Ok(!product.variables.is_empty())
    }

    // The product of a variable's gate, if it is one.
    fn product(&self, v: u32) -> Option<&Product> {
        let place = self.known.get(&v)?;
        self.all.get(*place)
    }

    // The place of the line that states a gate's product, unless its axiom does. With A B for the operands, it is the
    // axiom A B - v, plus the line of A times B, plus the line of B times the product that A is.
    fn line(&self, drafts: &mut Drafts, gate: Gate) -> Result<Option<usize>, Memory> {
        let (x, y) = (gate.left.var(), gate.right.var());
        if self.product(x).is_none() && self.product(y).is_none() {
            return Ok(None);
        }
        let mut left = Vec::new(self.alloc);
        self.join(&mut left, x)?;
        let mut parts = Vec::new(self.alloc);
        parts.push(Part::of_axiom(self.alloc, drafts, gate.v))?;
        self.push_part(drafts, &mut parts, x, vec![in self.alloc; y; 1]?)?;
        self.push_part(drafts, &mut parts, y, left)?;
        let place = push_rising(self.alloc, drafts, parts)?;
        Ok(Some(place))
    }

    // Where a variable's gate is a product, the line that states it, times some variables.
    fn push_part(
        &self,
        drafts: &Drafts,
        parts: &mut Vec<Part>,
        v: u32,
        variables: Vec<u32>,
    ) -> Result<(), Memory> {
        if let Some(product) = self.product(v) {
            let (rank, place) = match product.place {
                Some(place) => (LINES.saturating_add(place as u64), place),
                None => (u64::from(v), drafts.gate(v)),
            };
            parts.push(Part {
                rank,
                place,
                variables,
            })?;
        }
        Ok(())
    }
}

// Axioms come before lines, by their gates' variables.
const LINES: u64 = 1 << 32;

// A known line times variables.
#[derive(Drop)]
struct Part {
    /// where its id stands among those of all known lines
    rank: u64,
    place: usize,
    variables: Vec<u32>,
}

impl Part {
    // The axiom of a gate.
    fn of_axiom(alloc: Global, drafts: &Drafts, v: u32) -> Part {
        Part {
            rank: u64::from(v),
            place: drafts.gate(v),
            variables: Vec::new(alloc),
        }
    }
}

// The draft of parts, by rising ids, and the place of its line.
fn push_rising(alloc: Global, drafts: &mut Drafts, parts: Vec<Part>) -> Result<usize, Memory> {
    let mut rising = parts;
    rising.sort_unstable_by_key(|part| part.rank);
    let mut draft = Vec::new(alloc);
    for part in rising {
        draft.push((part.place, product_term(alloc, part.variables)?))?;
    }
    drafts.push(Draft { parts: draft })
}

// The sum of one product.
fn product_term(alloc: Global, variables: Vec<u32>) -> Result<Vec<Term>, Memory> {
    let mut terms = Vec::new(alloc);
    terms.push((1, variables))?;
    Ok(terms)
}

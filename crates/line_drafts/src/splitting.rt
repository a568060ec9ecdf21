// Drafts of lines that were written, of which each long one becomes several.
ghost use Rattle.std.specs.List.{All};
ghost use Rattle.poly_terms.specs.Tables.{IsOf};
ghost use Rattle.poly_text.specs.Lines.{AreOf};

use gate_axioms::Draft;
use graph_core::Memory;
use poly_terms::{Poly, Terms};
use poly_text::PacLine;
use ripple_graft::Extended;
use std::alloc::Global;
use std::mem;

// A coefficient times variables.
type Term = (u128, Vec<u32>);

// A gate's axiom has so many terms, at most.
const AXIOM_TERMS: u64 = 5;

// What stands in a line beside polynomials, and in a part beside its factor, at most.
const LINE_BYTES: u64 = 64;

const PART_BYTES: u64 = 32;

/// Drafts of the lines of a certificate over an extended graph. Where a combination may have a text of more than so
/// many bytes, there are several drafts, which the lines after it take in its place. None where a line isn't one that
/// adds up others.
///
/// They are a heuristic: whoever makes lines of them sees what they state.
pub fn split_lines(
    alloc: Global,
    extended: &Extended<'_>,
    terms: &Terms,
    lines: &[PacLine],
    most: u64,
) -> Result<Option<Vec<Draft>>, Memory>
    requires { All (AreOf terms.now) lines.now }
{
    let mut splitting = Splitting::new(alloc, extended, terms, most)?;
    for line in lines {
        let PacLine::Combination { parts, poly, .. } = line else {
            return Ok(None);
        };
        splitting.take_line(terms, parts.as_slice(), poly)?;
    }
    splitting.join_last()?;
    Ok(Some(splitting.drafts))
}

// The drafts so far, and the one that is open.
#[derive(Drop)]
struct Splitting {
    alloc: Global,
    most: u64,
    /// the greatest coefficient
    mask: u128,
    /// how long a variable is in a text, at most
    width: u64,
    /// by id: the first place of the lines that stand for that line, and the one after the last
    places: Vec<(usize, usize)>,
    /// how many places are before those of the drafts
    axioms: usize,
    drafts: Vec<Draft>,
    /// parts of the open draft
    parts: Vec<(usize, Vec<Term>)>,
    /// how long its line is, at most
    bytes: u64,
}

impl Splitting {
    // No draft: each axiom stands for itself.
    fn new(
        alloc: Global,
        extended: &Extended<'_>,
        terms: &Terms,
        most: u64,
    ) -> Result<Splitting, Memory> {
        let mut splitting = Splitting {
            alloc,
            most,
            mask: mask_of(terms.exponent()),
            width: u64::from(decimal_digits(u128::from(extended.max()))).saturating_add(2),
            places: vec![in alloc; (0usize, 0usize); extended.max() as usize + 1]?,
            axioms: 0,
            drafts: Vec::new(alloc),
            parts: Vec::new(alloc),
            bytes: 0,
        };
        for gate in extended.gates() {
            let place = splitting.next_axiom();
            if let Some(known) = splitting.places.get_mut(gate.v as usize) {
                *known = place;
            }
        }
        for k in 0..extended.graph().outputs() {
            let place = if extended.replaced(k) {
                splitting.next_axiom()
            } else {
                (0, 0)
            };
            splitting.places.push(place)?;
        }
        Ok(splitting)
    }

    // The place of one axiom more.
    fn next_axiom(&mut self) -> (usize, usize) {
        let place = self.axioms;
        self.axioms = place.saturating_add(1);
        (place, self.axioms)
    }

    // The place of the draft that is open.
    fn next_place(&self) -> usize {
        self.axioms.saturating_add(self.drafts.len())
    }

    // Drafts one line more, in parts where it is long.
    fn take_line(&mut self, terms: &Terms, parts: &[(u64, Poly)], poly: &Poly) -> Result<(), Memory>
        requires parts { All (λ part. IsOf terms.now part.1) parts.now }
        requires poly { IsOf terms.now poly.now }
    {
        let before = self.next_place();
        let is_long = self.line_length(terms, parts, poly) > self.most;
        for (id, factor) in parts {
            self.take_part(terms, *id, factor, is_long)?;
        }
        self.end_draft()?;
        let after = self.next_place();
        self.places.push((before, after))?;
        Ok(())
    }

    // How long a line is, at most.
    fn line_length(&self, terms: &Terms, parts: &[(u64, Poly)], poly: &Poly) -> u64
        requires parts { All (λ part. IsOf terms.now part.1) parts.now }
        requires poly { IsOf terms.now poly.now }
    {
        let mut bytes = LINE_BYTES.saturating_add(self.length(terms, poly));
        for (_, factor) in parts {
            bytes = bytes.saturating_add(PART_BYTES);
            bytes = bytes.saturating_add(self.length(terms, factor));
        }
        bytes
    }

    // How long a polynomial is, at most.
    fn length(&self, terms: &Terms, poly: &Poly) -> u64
        requires { IsOf terms.now poly.now }
    {
        let mut bytes: u64 = 0;
        for i in 0..terms.size(poly) {
            let variables = terms.vars(poly, i).len();
            bytes = bytes.saturating_add(self.term_length(terms.coefficient(poly, i), variables));
        }
        bytes
    }

    // How long a term is, at most.
    fn term_length(&self, coefficient: u128, variables: usize) -> u64 {
        let opposite = 0u128.wrapping_sub(coefficient) & self.mask;
        let number = u64::from(decimal_digits(coefficient.min(opposite))).saturating_add(2);
        number.saturating_add(self.width.saturating_mul(variables as u64))
    }

    // Takes a line times a factor.
    fn take_part(
        &mut self,
        terms: &Terms,
        id: u64,
        factor: &Poly,
        is_long: bool,
    ) -> Result<(), Memory>
        requires { IsOf terms.now factor.now }
    {
        let (first, end) = match self.places.get(id as usize) {
            Some(places) => *places,
            None => (0, 0),
        };
        for place in first..end {
            for i in 0..terms.size(factor) {
                let mut variables = Vec::new(self.alloc);
                variables.extend_from_slice(terms.vars(factor, i))?;
                self.take_term(place, (terms.coefficient(factor, i), variables), is_long)?;
            }
        }
        Ok(())
    }

    // Takes the line at a place times a term, and ends a draft that may be long.
    fn take_term(&mut self, place: usize, term: Term, is_long: bool) -> Result<(), Memory> {
        if is_long {
            self.bytes = self.bytes.saturating_add(self.term_cost(place, &term));
            if self.bytes > self.most {
                self.end_draft()?;
                self.bytes = self.term_cost(place, &term);
            }
        }
        if let Some(part) = self.parts.last_mut() {
            if part.0 == place {
                part.1.push(term)?;
                return Ok(());
            }
        }
        let mut factor = Vec::new(self.alloc);
        factor.push(term)?;
        self.parts.push((place, factor))?;
        Ok(())
    }

    // How much longer a line is by a term, in the factor and, where an axiom is taken, in what it states.
    fn term_cost(&self, place: usize, term: &Term) -> u64 {
        let length = self.term_length(term.0, term.1.len());
        if place >= self.axioms {
            return length.saturating_add(PART_BYTES);
        }
        let product = length.saturating_add(self.width.saturating_mul(2));
        length.saturating_add(product.saturating_mul(AXIOM_TERMS))
    }

    // Ends the open draft, if it has a part.
    fn end_draft(&mut self) -> Result<(), Memory> {
        let mut parts = mem::replace(&mut self.parts, Vec::new(self.alloc));
        self.bytes = 0;
        if !parts.is_empty() {
            parts.sort_unstable_by_key(|part| part.0);
            self.drafts.push(Draft { parts })?;
        }
        Ok(())
    }

    // Adds the drafts of the last line up, where it has several.
    fn join_last(&mut self) -> Result<(), Memory> {
        let Some((first, end)) = self.places.last().copied() else {
            return Ok(());
        };
        if end <= first.saturating_add(1) {
            return Ok(());
        }
        for place in first..end {
            self.take_term(place, (1, Vec::new(self.alloc)), false)?;
        }
        self.end_draft()
    }
}

// The greatest number below 2 to a power.
fn mask_of(exponent: u32) -> u128 {
    if exponent < 128 {
        (1u128 << exponent) - 1
    } else {
        u128::MAX
    }
}

// How many decimal digits a number has, at most.
fn decimal_digits(number: u128) -> u32 {
    let bits = 128 - number.leading_zeros().min(128);
    bits / 3 + 1
}

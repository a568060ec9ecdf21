// Ids and parts of a combination, as they are read.
ghost use Rattle.std.specs.Prelude.{◌≡◌, ◌^◌, None, IfOk, IfErr, codes};
ghost use Rattle.graph_core.specs.Text.Numerals.{number_at};
ghost use Rattle.graph_core.specs.Text.Readers.{many_at, behind_at, ended_at};
ghost use Rattle.algebra_core.specs.Reading.{is_space, part_at, parts_at, poly_at};
ghost use Rattle.algebra_core.specs.Text.{IsId};
ghost use Rattle.poly_terms.specs.Tables.{Extends, modulus_in};
ghost use Rattle.mv_text.specs.Steps.{IsMisfit, TakesNumber};
ghost use Rattle.poly_text.specs.Values.{TakesAllParts, TakesPart, TakesParts, TakesPoly};

use crate::numbers::id;
use crate::pac_reader::PacReader;
use mv_text::{LineFail, Scanner, push};
use poly_terms::{Poly, Terms};

// An id and a text after it.
pub(crate) fn ended_id(scanner: &mut Scanner<'_>, end: &[u8]) -> Result<Option<u64>, LineFail>
    ensures ok { IfOk result
        (TakesNumber (ended_at (number_at 15) end.now) IsId scanner.old scanner.new) }
    ensures err { IfErr result (IsMisfit (ended_at (number_at 15) end.now scanner.old ≡ None)) }
{
    let id = id(scanner)?;
    scanner.text(end)?;
    Ok(id)
}

impl PacReader {
    // The parts of a combination, and what stands after them.
    pub(crate) fn ended_parts(
        &self,
        scanner: &mut Scanner<'_>,
        terms: &mut Terms,
    ) -> Result<Option<Vec<(u64, Poly)>>, LineFail>
        requires { modulus_in terms.old ≡ 2 ^ self.now.exponent }
        ensures ok { IfOk result
            (TakesAllParts (ended_at parts_at (codes ", ")) self.now.max terms.new scanner.old
            scanner.new) }
        ensures err { IfErr result (IsMisfit (ended_at parts_at (codes ", ") scanner.old ≡ None)) }
        ensures extends { Extends terms.old terms.new }
    {
        let parts = self.parts(scanner, terms)?;
        scanner.text(b", ")?;
        Ok(parts)
    }

    // The parts of a combination.
    fn parts(
        &self,
        scanner: &mut Scanner<'_>,
        terms: &mut Terms,
    ) -> Result<Option<Vec<(u64, Poly)>>, LineFail>
        requires { modulus_in terms.old ≡ 2 ^ self.now.exponent }
        ensures ok { IfOk result
            (TakesAllParts parts_at self.now.max terms.new scanner.old scanner.new) }
        ensures err { IfErr result (IsMisfit (parts_at scanner.old ≡ None)) }
        ensures extends { Extends terms.old terms.new }
    {
        let first = self.part(scanner, terms)?;
        let mut parts = Some(Vec::new(self.alloc));
        push(&mut parts, first)?;
        let parts = self.later_parts(scanner, terms, parts)?;
        Ok(parts)
    }

    // Parts with a plus before each, put after other parts.
    fn later_parts(
        &self,
        scanner: &mut Scanner<'_>,
        terms: &mut Terms,
        before: Option<Vec<(u64, Poly)>>,
    ) -> Result<Option<Vec<(u64, Poly)>>, LineFail>
        requires { modulus_in terms.old ≡ 2 ^ self.now.exponent }
        ensures ok { IfOk result (
            let later = many_at is_space (behind_at (codes " + ") part_at) in
            TakesParts later before self.now.max terms.new scanner.old scanner.new) }
        ensures err { IfErr result
            (IsMisfit (many_at is_space (behind_at (codes " + ") part_at) scanner.old ≡ None)) }
        ensures extends { Extends terms.old terms.new }
    {
        let mut parts = before;
        while scanner.is_at(b' ') {
            let part = self.later_part(scanner, terms)?;
            push(&mut parts, part)?;
        }
        Ok(parts)
    }

    // A part after a plus.
    #[tactic(auto, using(poly_terms::specs::Laws::extends_itself))]
    fn later_part(
        &self,
        scanner: &mut Scanner<'_>,
        terms: &mut Terms,
    ) -> Result<Option<(u64, Poly)>, LineFail>
        requires { modulus_in terms.old ≡ 2 ^ self.now.exponent }
        ensures ok { IfOk result
            (TakesPart (behind_at (codes " + ") part_at) self.now.max terms.new scanner.old
            scanner.new) }
        ensures err { IfErr result (IsMisfit (behind_at (codes " + ") part_at scanner.old ≡ None)) }
        ensures extends { Extends terms.old terms.new }
    {
        scanner.text(b" + ")?;
        self.part(scanner, terms)
    }

    // A line's id times a polynomial.
    #[tactic(auto, using(poly_terms::specs::Laws::extends_itself))]
    fn part(
        &self,
        scanner: &mut Scanner<'_>,
        terms: &mut Terms,
    ) -> Result<Option<(u64, Poly)>, LineFail>
        requires { modulus_in terms.old ≡ 2 ^ self.now.exponent }
        ensures ok { IfOk result
            (TakesPart part_at self.now.max terms.new scanner.old scanner.new) }
        ensures err { IfErr result (IsMisfit (part_at scanner.old ≡ None)) }
        ensures extends { Extends terms.old terms.new }
    {
        let id = ended_id(scanner, b" * (")?;
        let factor = self.ended_poly(scanner, terms, b")")?;
        Ok(id.zip(factor))
    }

    // A polynomial and a text after it.
    pub(crate) fn ended_poly(
        &self,
        scanner: &mut Scanner<'_>,
        terms: &mut Terms,
        end: &[u8],
    ) -> Result<Option<Poly>, LineFail>
        requires { modulus_in terms.old ≡ 2 ^ self.now.exponent }
        ensures ok { IfOk result
            (TakesPoly (ended_at poly_at end.now) self.now.max terms.new scanner.old scanner.new) }
        ensures err { IfErr result (IsMisfit (ended_at poly_at end.now scanner.old ≡ None)) }
        ensures extends { Extends terms.old terms.new }
    {
        let poly = self.poly(scanner, terms)?;
        scanner.text(end)?;
        Ok(poly)
    }
}

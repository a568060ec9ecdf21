// Polynomials, as they are read.
ghost use Rattle.std.specs.Prelude.{◌≡◌, ◌^◌, [], None, IfOk, IfErr};
ghost use Rattle.graph_core.specs.Text.Readers.{many_at};
ghost use Rattle.algebra_core.specs.Reading.{is_sign, first_term_at, signed_term_at, poly_at};
ghost use Rattle.algebra_core.specs.Text.{IsInRange};
ghost use Rattle.poly_terms.specs.Tables.{Extends, modulus_in};
ghost use Rattle.mv_text.specs.Steps.{IsMisfit, Takes, begins};
ghost use Rattle.poly_text.specs.Values.{AreTermsOf, TakesPoly, TakesTerm, TakesTerms};

use crate::pac_reader::PacReader;
use mv_text::{LineFail, Scanner, push};
use poly_terms::{Poly, Terms, Variables};

impl PacReader {
    // A polynomial.
    pub(crate) fn poly(
        &self,
        scanner: &mut Scanner<'_>,
        terms: &mut Terms,
    ) -> Result<Option<Poly>, LineFail>
        requires { modulus_in terms.old ≡ 2 ^ self.now.exponent }
        ensures ok { IfOk result
            (TakesPoly poly_at self.now.max terms.new scanner.old scanner.new) }
        ensures err { IfErr result (IsMisfit (poly_at scanner.old ≡ None)) }
        ensures extends { Extends terms.old terms.new }
    {
        let room = terms.take_room();
        let Some(given) = self.all_terms(scanner, room)? else {
            return Ok(None);
        };
        match terms.make_of(given) {
            Ok(poly) => Ok(Some(poly)),
            Err(_) => Err(LineFail::Memory),
        }
    }

    // The terms of a polynomial, in room that has none.
    #[inline(always)]
    fn all_terms(
        &self,
        scanner: &mut Scanner<'_>,
        room: Vec<(u128, Variables)>,
    ) -> Result<Option<Vec<(u128, Variables)>>, LineFail>
        requires { room.items ≡ [] }
        ensures ok { IfOk result (
            Takes poly_at (IsInRange self.now.max) (AreTermsOf (2 ^ self.now.exponent)) scanner.old scanner.new) }
        ensures err { IfErr result (IsMisfit (poly_at scanner.old ≡ None)) }
    {
        let first = self.first_term(scanner)?;
        let mut terms = Some(room);
        push(&mut terms, first)?;
        let terms = self.later_terms(scanner, terms)?;
        Ok(terms)
    }

    // The first term, which has no plus.
    #[inline(always)]
    fn first_term(&self, scanner: &mut Scanner<'_>) -> Result<Option<(u128, Variables)>, LineFail>
        ensures ok { IfOk result
            (TakesTerm first_term_at self.now.max self.now.exponent scanner.old scanner.new) }
        ensures err { IfErr result (IsMisfit (first_term_at scanner.old ≡ None)) }
    {
        let negative = scanner.is_at(b'-');
        if negative {
            scanner.text(b"-")?;
        }
        self.term(scanner, negative)
    }

    // Terms with their signs, put after other terms.
    #[inline(always)]
    fn later_terms(
        &self,
        scanner: &mut Scanner<'_>,
        before: Option<Vec<(u128, Variables)>>,
    ) -> Result<Option<Vec<(u128, Variables)>>, LineFail>
        ensures ok { IfOk result (
            TakesTerms (many_at is_sign signed_term_at) before self.now.max self.now.exponent scanner.old scanner.new) }
        ensures err { IfErr result (IsMisfit (many_at is_sign signed_term_at scanner.old ≡ None)) }
    {
        let mut terms = before;
        while is_at_sign(scanner) {
            let term = self.later_term(scanner)?;
            push(&mut terms, term)?;
        }
        Ok(terms)
    }

    // A term with its sign.
    #[inline(always)]
    fn later_term(&self, scanner: &mut Scanner<'_>) -> Result<Option<(u128, Variables)>, LineFail>
        ensures ok { IfOk result
            (TakesTerm signed_term_at self.now.max self.now.exponent scanner.old scanner.new) }
        ensures err { IfErr result (IsMisfit (signed_term_at scanner.old ≡ None)) }
    {
        let negative = scanner.is_at(b'-');
        scanner.text(if negative { b"-" } else { b"+" })?;
        self.term(scanner, negative)
    }
}

#[inline(always)]
fn is_at_sign(scanner: &Scanner<'_>) -> bool
    ensures { result ≡ begins is_sign scanner.now }
{
    scanner.is_at(b'+') || scanner.is_at(b'-')
}

// Terms, as they are read.
ghost use Rattle.std.specs.Prelude.{◌≡◌, ◌+◌, ◌%◌, ◌^◌, true, false, None, IfOk, IfErr, OnOk};
ghost use Rattle.graph_core.specs.Text.Numerals.{number_at};
ghost use Rattle.graph_core.specs.Text.Readers.{behind_at};
ghost use Rattle.algebra_core.specs.Reading.{factors_at, coefficient_at, product_at, term_at};
ghost use Rattle.mv_text.specs.Steps.{IsMisfit, IsVariable, TakesNumber};
ghost use Rattle.poly_text.specs.Values.{IsTimes, Signs, TakesFactors, TakesTerm};

use crate::numbers::{coefficient, variable};
use crate::pac_reader::PacReader;
use mv_nums::Residue;
use mv_text::{LineFail, Scanner};
use poly_terms::Variables;

impl PacReader {
    ghost use Rattle.std.specs.Prelude.{codes};

    // A term after its sign.
    #[inline(always)]
    pub(crate) fn term(
        &self,
        scanner: &mut Scanner<'_>,
        negative: bool,
    ) -> Result<Option<(u128, Variables)>, LineFail>
        ensures ok { IfOk result
            (TakesTerm (term_at negative) self.now.max self.now.exponent scanner.old scanner.new) }
        ensures err { IfErr result (IsMisfit (term_at negative scanner.old ≡ None)) }
    {
        if scanner.is_at_digit() {
            self.with_coefficient(scanner, negative)
        } else {
            self.product(scanner, negative)
        }
    }

    // A coefficient, and variables after stars.
    #[inline(always)]
    fn with_coefficient(
        &self,
        scanner: &mut Scanner<'_>,
        negative: bool,
    ) -> Result<Option<(u128, Variables)>, LineFail>
        ensures ok { IfOk result
            (TakesTerm (coefficient_at negative) self.now.max self.now.exponent scanner.old
            scanner.new) }
        ensures err { IfErr result (IsMisfit (coefficient_at negative scanner.old ≡ None)) }
    {
        let coefficient = coefficient(scanner)?;
        let variables = self.factors(scanner, Some(Variables::new(self.alloc)))?;
        Ok(self.signed_term(negative, coefficient, variables))
    }

    // A variable, and variables after stars.
    #[inline(always)]
    fn product(
        &self,
        scanner: &mut Scanner<'_>,
        negative: bool,
    ) -> Result<Option<(u128, Variables)>, LineFail>
        ensures ok { IfOk result
            (TakesTerm (product_at negative) self.now.max self.now.exponent scanner.old scanner.new) }
        ensures err { IfErr result (IsMisfit (product_at negative scanner.old ≡ None)) }
    {
        scanner.text(b"x")?;
        let first = variable(scanner, self.max)?;
        let mut before = Some(Variables::new(self.alloc));
        times(&mut before, first)?;
        let variables = self.factors(scanner, before)?;
        Ok(self.signed_term(negative, Some(1), variables))
    }

    // The variables after stars, put after other variables.
    #[inline(always)]
    fn factors(
        &self,
        scanner: &mut Scanner<'_>,
        before: Option<Variables>,
    ) -> Result<Option<Variables>, LineFail>
        ensures ok { IfOk result (TakesFactors before self.now.max scanner.old scanner.new) }
        ensures err { IfErr result (IsMisfit (factors_at scanner.old ≡ None)) }
    {
        let mut variables = before;
        while scanner.is_at(b'*') {
            let variable = self.factor(scanner)?;
            times(&mut variables, variable)?;
        }
        Ok(variables)
    }

    // A variable after a star.
    #[inline(always)]
    fn factor(&self, scanner: &mut Scanner<'_>) -> Result<Option<u32>, LineFail>
        ensures ok { IfOk result
            (TakesNumber (behind_at (codes "*x") (number_at 10)) (IsVariable self.now.max)
            scanner.old scanner.new) }
        ensures err { IfErr result
            (IsMisfit (behind_at (codes "*x") (number_at 10) scanner.old ≡ None)) }
    {
        scanner.text(b"*x")?;
        variable(scanner, self.max)
    }

    // A coefficient with its sign and variables, where both are in range.
    #[inline(always)]
    fn signed_term(
        &self,
        negative: bool,
        coefficient: Option<u128>,
        variables: Option<Variables>,
    ) -> Option<(u128, Variables)>
        ensures { Signs (2 ^ self.now.exponent) negative coefficient variables result }
    {
        let coefficient = coefficient?;
        let variables = variables?;
        Some((self.signed(negative, coefficient), variables))
    }

    // A coefficient with its sign, modulo 2^exponent.
    #[inline(always)]
    fn signed(&self, negative: bool, coefficient: u128) -> u128
        ensures plus { negative ≡ false → result ≡ coefficient }
        ensures minus { negative ≡ true → (result + coefficient) % 2 ^ self.now.exponent ≡ 0 }
    {
        if negative {
            Residue::new(self.exponent, coefficient).neg().value()
        } else {
            coefficient
        }
    }
}

// Puts one more variable after others, where both are there; else there are no variables any more.
#[inline(always)]
fn times(variables: &mut Option<Variables>, v: Option<u32>) -> Result<(), LineFail>
    ensures ok { OnOk result (IsTimes variables.old v variables.new) }
    ensures err { IfErr result (IsMisfit ⊥) }
{
    match v {
        Some(v) => {
            if let Some(variables) = variables {
                variables.push(v).map_err(|_| LineFail::Memory)?;
            }
        }
        None => *variables = None,
    }
    Ok(())
}

// Variables and numbers of a header.
ghost use Rattle.std.specs.Prelude.{◌≡◌, ◌≤◌, IfOk, IfErr, None, codes};
ghost use Rattle.graph_core.specs.Text.Numerals.{number_at};
ghost use Rattle.graph_core.specs.Text.Readers.{ended_at};
ghost use Rattle.mv_text.specs.Steps.{IsMisfit, IsVariable, TakesNumber};
ghost use Rattle.drup_text.specs.ClauseReading.{nonzero_at};

use mv_text::{LineFail, Scanner};

// A variable, which doesn't begin with 0, or nothing where it is above the greatest one.
pub(crate) fn variable(scanner: &mut Scanner<'_>, max: u32) -> Result<Option<u32>, LineFail>
    ensures ok { IfOk result (TakesNumber nonzero_at (IsVariable max) scanner.old scanner.new) }
    ensures err { IfErr result (IsMisfit (nonzero_at scanner.old ≡ None)) }
{
    if scanner.is_at(b'0') {
        return Err(LineFail::Text);
    }
    match scanner.number(10)? {
        Some(variable) if 0 < variable && variable <= u128::from(max) => Ok(Some(variable as u32)),
        _ => Ok(None),
    }
}

// A number, or nothing where it is above the greatest one.
pub(crate) fn number(scanner: &mut Scanner<'_>, most: u32) -> Result<Option<u32>, LineFail>
    ensures ok { IfOk result
        (TakesNumber (number_at 10) (λ n. n ≤ most) scanner.old scanner.new) }
    ensures err { IfErr result (IsMisfit (number_at 10 scanner.old ≡ None)) }
{
    match scanner.number(10)? {
        Some(number) if number <= u128::from(most) => Ok(Some(number as u32)),
        _ => Ok(None),
    }
}

// A number and a space.
pub(crate) fn spaced_number(scanner: &mut Scanner<'_>, most: u32) -> Result<Option<u32>, LineFail>
    ensures ok { IfOk result
        (TakesNumber (ended_at (number_at 10) (codes " ")) (λ n. n ≤ most) scanner.old
        scanner.new) }
    ensures err { IfErr result (IsMisfit (ended_at (number_at 10) (codes " ") scanner.old ≡ None)) }
{
    let number = number(scanner, most)?;
    scanner.text(b" ")?;
    Ok(number)
}

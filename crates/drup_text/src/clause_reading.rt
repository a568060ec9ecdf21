// Clauses, as they are read.
ghost use Rattle.std.specs.Prelude.{◌≡◌, ◌<◌, ◌≤◌, ◌^◌, ℤ, pos, None, IfOk, IfErr, codes, neg_ℤ, option_map};
ghost use Rattle.graph_core.specs.Text.Readers.{ended_at};
ghost use Rattle.mv_text.specs.Steps.{IsMisfit, Takes, begins};
ghost use Rattle.drup_text.specs.ClauseReading.{clause_literals_at, clause_read_at, is_no_zero, literal_at, minus_number};
ghost use Rattle.drup_text.specs.Steps.{TakesClause, TakesLiteral, TakesLiterals};

use crate::numbers::variable;
use clause_core::Clause;
use mv_text::{LineFail, Scanner, push};
use std::alloc::Global;

// A clause, or nothing where a variable of it is above the greatest one.
pub(crate) fn clause(
    alloc: Global,
    scanner: &mut Scanner<'_>,
    max: u32,
) -> Result<Option<Clause>, LineFail>
    requires { max < 2 ^ 31 }
    ensures ok { IfOk result (TakesClause max scanner.old scanner.new) }
    ensures err { IfErr result (IsMisfit (clause_read_at scanner.old ≡ None)) }
{
    let literals = literals(alloc, scanner, max)?;
    scanner.text(b"0")?;
    let Some(literals) = literals else {
        return Ok(None);
    };
    match Clause::new(alloc, &literals) {
        Ok(clause) => Ok(Some(clause)),
        Err(_) => Err(LineFail::Memory),
    }
}

// Literals, each with a space after it, up to the 0 of a clause.
fn literals(
    alloc: Global,
    scanner: &mut Scanner<'_>,
    max: u32,
) -> Result<Option<Vec<i32>>, LineFail>
    requires { max < 2 ^ 31 }
    ensures ok { IfOk result (TakesLiterals max scanner.old scanner.new) }
    ensures err { IfErr result (IsMisfit (clause_literals_at scanner.old ≡ None)) }
{
    let mut literals = Some(Vec::new(alloc));
    while is_at_literal(scanner) {
        let literal = spaced_literal(scanner, max)?;
        push(&mut literals, literal)?;
    }
    Ok(literals)
}

// A literal and a space.
fn spaced_literal(scanner: &mut Scanner<'_>, max: u32) -> Result<Option<i32>, LineFail>
    requires { max < 2 ^ 31 }
    ensures ok { IfOk result
        (TakesLiteral (ended_at literal_at (codes " ")) max scanner.old scanner.new) }
    ensures err { IfErr result (IsMisfit (ended_at literal_at (codes " ") scanner.old ≡ None)) }
{
    let literal = literal(scanner, max)?;
    scanner.text(b" ")?;
    Ok(literal)
}

// A variable, or its negation.
fn literal(scanner: &mut Scanner<'_>, max: u32) -> Result<Option<i32>, LineFail>
    requires { max < 2 ^ 31 }
    ensures ok { IfOk result (TakesLiteral literal_at max scanner.old scanner.new) }
    ensures err { IfErr result (IsMisfit (literal_at scanner.old ≡ None)) }
{
    if scanner.is_at(b'-') {
        scanner.text(b"-")?;
        match variable(scanner, max)? {
            Some(variable) => Ok(Some(minus(variable))),
            None => Ok(None),
        }
    } else {
        match variable(scanner, max)? {
            Some(variable) => Ok(Some(plus(variable))),
            None => Ok(None),
        }
    }
}

fn plus(variable: u32) -> i32
    requires { variable < 2 ^ 31 }
    ensures { result ≡ pos variable }
{
    variable as i32
}

fn minus(variable: u32) -> i32
    requires { variable < 2 ^ 31 }
    ensures { result ≡ minus_number variable }
{
    -(variable as i32)
}

// Whether something stands here that doesn't end a clause.
fn is_at_literal(scanner: &Scanner<'_>) -> bool
    ensures { result ≡ begins is_no_zero scanner.now }
{
    match scanner.peek() {
        Some(byte) => byte != b'0',
        None => false,
    }
}

// The lines of a header, as they are read.
ghost use Rattle.std.specs.Prelude.{◌≡◌, ◌↔◌, None, IsTrue, IfOk, IfErr, length};
ghost use Rattle.mv_text.specs.Steps.{IsMisfit, Takes};
ghost use Rattle.drup_text.specs.ClauseReading.{block_line_at, carry_at, cut_line_at, number_line_at, output_line_at, pair_line_at, two_at};
ghost use Rattle.drup_text.specs.ClauseTexts.{IsBlockLine, IsCutLine, IsNumberLine, IsOutputLine, IsPairLine};
ghost use Rattle.mv_text.specs.CertificateFiles.{SaysNothing};
ghost use Rattle.drup_text.specs.LineTexts.{IsBlockTextOf, IsCountInRange, IsCutSize, IsCutTextOf, IsHeadOf, IsNumberTextOf, IsOutputTextOf, IsPairOf, IsPairTextOf, IsSizeInRange};
ghost use Rattle.drup_text.specs.Steps.{TakesCarry, TakesHead, TakesNumberLine, TakesOutput, TakesPair, TakesSize, TakesTwo};
ghost use Rattle.ripple_graft.specs.Beside.{IsOutput};

use crate::numbers::{number, spaced_number};
use graph_core::Lit;
use mv_text::{LineFail, Scanner};
use ripple_graft::Extended;

// The first column of a cut and the number of its pairs, or that there is no cut.
//
// `Range` comes exactly where the cut doesn't end at the last of so many columns or the one before it.
pub(crate) fn read_size(bytes: &[u8], outputs: u32) -> Result<Option<(u32, u32)>, LineFail>
    ensures ok { IfOk result (IsCutTextOf outputs bytes.now) }
    ensures err { IfErr result (SaysNothing IsCutLine (IsSizeInRange outputs) bytes.now) }
{
    let mut scanner = Scanner::new(bytes);
    let size = size(&mut scanner, outputs)?;
    scanner.all(size)
}

// The two literals of a position or a gate. `Range` comes exactly where the graph with what was added so far doesn't
// have both.
pub(crate) fn read_pair(bytes: &[u8], extended: &Extended<'_>) -> Result<(Lit, Lit), LineFail>
    ensures ok { IfOk result (IsPairTextOf extended.now bytes.now) }
    ensures err { IfErr result (SaysNothing IsPairLine (IsPairOf extended.now) bytes.now) }
{
    let mut scanner = Scanner::new(bytes);
    let pair = pair(&mut scanner, extended)?;
    scanner.all(pair)
}

// The number after a word. `Range` comes exactly where it is above the greatest one.
pub(crate) fn read_number(bytes: &[u8], word: &[u8], most: u32) -> Result<u32, LineFail>
    ensures ok { IfOk result (IsNumberTextOf word.now most bytes.now) }
    ensures err { IfErr result
        (SaysNothing (IsNumberLine word.now) (IsCountInRange most) bytes.now) }
{
    let mut scanner = Scanner::new(bytes);
    let number = number_line(&mut scanner, word, most)?;
    scanner.all(number)
}

// A column, and the literal that takes the place of its output. `Range` comes exactly where the column isn't there or
// is replaced already, or the graph with its gates so far doesn't have the literal.
pub(crate) fn read_output(bytes: &[u8], extended: &Extended<'_>) -> Result<(u32, Lit), LineFail>
    ensures ok { IfOk result (IsOutputTextOf extended.now bytes.now) }
    ensures err { IfErr result (SaysNothing IsOutputLine (IsOutput extended.now) bytes.now) }
{
    let mut scanner = Scanner::new(bytes);
    let output = output(&mut scanner, extended)?;
    scanner.all(output)
}

// The first column of a block, the number of its pairs, and whether its last carry replaces a column too. `Range`
// comes exactly where there is no pair, or one of its columns isn't there or is replaced by a block before.
pub(crate) fn read_head(bytes: &[u8], extended: &Extended<'_>) -> Result<(u32, u32, bool), LineFail>
    ensures ok { IfOk result (IsBlockTextOf extended.now bytes.now) }
    ensures err { IfErr result (SaysNothing IsBlockLine (IsHeadOf extended.now) bytes.now) }
{
    let mut scanner = Scanner::new(bytes);
    let head = head(&mut scanner, extended)?;
    scanner.all(head)
}

fn size(scanner: &mut Scanner<'_>, outputs: u32) -> Result<Option<Option<(u32, u32)>>, LineFail>
    ensures ok { IfOk result (TakesSize outputs scanner.old scanner.new) }
    ensures err { IfErr result (IsMisfit (cut_line_at scanner.old ≡ None)) }
{
    if scanner.is_at(b'n') {
        scanner.text(b"none")?;
        return Ok(Some(None));
    }
    scanner.text(b"replace ")?;
    let Some((lo, count)) = two(scanner, outputs)? else {
        return Ok(None);
    };
    if is_cut_size(lo, count, outputs) {
        Ok(Some(Some((lo, count))))
    } else {
        Ok(None)
    }
}

fn is_cut_size(lo: u32, count: u32, outputs: u32) -> bool
    ensures { IsTrue result ↔ IsCutSize outputs (lo, count) }
{
    let end = u64::from(lo) + u64::from(count);
    count > 0 && (end == u64::from(outputs) || end + 1 == u64::from(outputs))
}

fn pair(scanner: &mut Scanner<'_>, extended: &Extended<'_>) -> Result<Option<(Lit, Lit)>, LineFail>
    ensures ok { IfOk result (TakesPair extended.now scanner.old scanner.new) }
    ensures err { IfErr result (IsMisfit (pair_line_at scanner.old ≡ None)) }
{
    let Some((x, y)) = two(scanner, 2 * extended.max() + 1)? else {
        return Ok(None);
    };
    if has_pair(extended, Lit(x), Lit(y)) {
        Ok(Some((Lit(x), Lit(y))))
    } else {
        Ok(None)
    }
}

fn has_pair(extended: &Extended<'_>, x: Lit, y: Lit) -> bool
    ensures { IsTrue result ↔ IsPairOf extended.now (x, y) }
{
    extended.is_known(x) && extended.is_known(y)
}

fn number_line(scanner: &mut Scanner<'_>, word: &[u8], most: u32) -> Result<Option<u32>, LineFail>
    ensures ok { IfOk result (TakesNumberLine word.now most scanner.old scanner.new) }
    ensures err { IfErr result (IsMisfit (number_line_at word.now scanner.old ≡ None)) }
{
    scanner.text(word)?;
    number(scanner, most)
}

fn output(
    scanner: &mut Scanner<'_>,
    extended: &Extended<'_>,
) -> Result<Option<(u32, Lit)>, LineFail>
    ensures ok { IfOk result (TakesOutput extended.now scanner.old scanner.new) }
    ensures err { IfErr result (IsMisfit (output_line_at scanner.old ≡ None)) }
{
    let columns = extended.graph().outputs();
    let greatest = extended.max();
    let most = columns.max(2 * greatest + 1);
    let Some((column, new)) = two(scanner, most)? else {
        return Ok(None);
    };
    if has_output(extended, column, Lit(new)) {
        Ok(Some((column, Lit(new))))
    } else {
        Ok(None)
    }
}

fn has_output(extended: &Extended<'_>, column: u32, new: Lit) -> bool
    ensures { IsTrue result ↔ IsOutput extended.now (column, new) }
{
    column < extended.graph().outputs() && !extended.replaced(column) && extended.is_known(new)
}

fn head(
    scanner: &mut Scanner<'_>,
    extended: &Extended<'_>,
) -> Result<Option<(u32, u32, bool)>, LineFail>
    ensures ok { IfOk result (TakesHead extended.now scanner.old scanner.new) }
    ensures err { IfErr result (IsMisfit (block_line_at scanner.old ≡ None)) }
{
    scanner.text(b"replace ")?;
    let size = two(scanner, extended.graph().outputs())?;
    let carry = carry(scanner)?;
    let Some((lo, count)) = size else {
        return Ok(None);
    };
    if extended.has_room(lo, count as usize, carry) {
        Ok(Some((lo, count, carry)))
    } else {
        Ok(None)
    }
}

// The word carry, if a space stands here.
fn carry(scanner: &mut Scanner<'_>) -> Result<bool, LineFail>
    ensures ok { IfOk result (TakesCarry scanner.old scanner.new) }
    ensures err { IfErr result (IsMisfit (carry_at scanner.old ≡ None)) }
{
    if !scanner.is_at(b' ') {
        return Ok(false);
    }
    scanner.text(b" carry")?;
    Ok(true)
}

// Two numbers with a space between them, or nothing where one is above the greatest one.
fn two(scanner: &mut Scanner<'_>, most: u32) -> Result<Option<(u32, u32)>, LineFail>
    ensures ok { IfOk result (TakesTwo most scanner.old scanner.new) }
    ensures err { IfErr result (IsMisfit (two_at scanner.old ≡ None)) }
{
    let one = spaced_number(scanner, most)?;
    let two = number(scanner, most)?;
    Ok(one.zip(two))
}

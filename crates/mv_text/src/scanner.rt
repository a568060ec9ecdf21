// What is taken from the front of a line.
ghost use Rattle.std.specs.Prelude.{◌≡◌, ◌≢◌, ◌<◌, ◌≤◌, ◌^◌, ◌↔◌, ◌==◌, [], IsTrue, IfOk, OnOk, IfErr, IfSome, IfNone, Some, None, Err, length, ok_or, take, drop};
ghost use Rattle.graph_core.specs.Text.Numerals.{number_at, behind_byte, front_at, digits_of, behind_digits, is_digit};
ghost use Rattle.mv_text.specs.NumbersAhead.{IsNumberAhead};
ghost use Rattle.mv_text.specs.Steps.{IsDigitsOf, IsMisfit, TakesNumber, first_byte, begins};

use crate::line_fail::LineFail;
use mv_nums::read_decimal;
use std::marker::Model;

// A number of so many digits is below 10^19, and so below 2^64.
const SHORT: usize = 19;

/// The bytes of a line that are still to be read.
#[derive(Drop)]
pub struct Scanner<'a> {
    left: &'a [u8],
}

impl<'a> Model for Scanner<'a> {
    ghost use Rattle.std.specs.Prelude.{List, ℕ};

    ghost Value = { List ℕ };

    ghost view = { λ s. s.left.now };
}

impl<'a> Scanner<'a> {
    pub fn new(bytes: &'a [u8]) -> Scanner<'a>
        ensures { result ≡ bytes.now }
    {
        Scanner { left: bytes }
    }

    #[inline(always)]
    pub fn is_empty(&self) -> bool
        ensures { IsTrue result ↔ (self.now ≡ []) }
    {
        self.left.is_empty()
    }

    /// The next byte, which stays.
    #[inline(always)]
    pub fn peek(&self) -> Option<u8>
        ensures { result ≡ first_byte self.now }
    {
        self.left.first().copied()
    }

    /// Whether this byte comes next.
    #[inline(always)]
    pub fn is_at(&self, byte: u8) -> bool
        ensures { result ≡ begins (λ b. b == byte) self.now }
    {
        self.peek() == Some(byte)
    }

    #[inline(always)]
    pub fn is_at_digit(&self) -> bool
        ensures { result ≡ begins is_digit self.now }
    {
        match self.peek() {
            Some(byte) => byte.is_ascii_digit(),
            None => false,
        }
    }

    /// Takes a text, where it is what comes next.
    #[inline(always)]
    pub fn text(&mut self, text: &[u8]) -> Result<(), LineFail>
        ensures ok { OnOk result (front_at text.now self.old ≡ Some self.new) }
        ensures err { IfErr result (IsMisfit (front_at text.now self.old ≡ None)) }
    {
        for byte in text {
            self.byte(*byte)?;
        }
        Ok(())
    }

    /// Takes a number of at most so many digits. It is nothing where it is 2^128 or more.
    #[inline(always)]
    pub fn number(&mut self, most: usize) -> Result<Option<u128>, LineFail>
        ensures ok { IfOk result
            (TakesNumber (number_at most) (λ n. n < 2 ^ 128) self.old self.new) }
        ensures err { IfErr result (IsMisfit (number_at most self.old ≡ None)) }
    {
        // Nearly all are short.
        if let Some((number, count)) = number_ahead(self.left, most.min(SHORT)) {
            self.left = &self.left[count..];
            return Ok(Some(u128::from(number)));
        }
        let digits = self.digits(most)?;
        match read_decimal(digits) {
            Ok(number) => Ok(Some(number)),
            Err(_) => Ok(None),
        }
    }

    /// Takes a number of at most so many digits, of which there may be 19.
    #[inline(always)]
    pub fn small(&mut self, most: usize) -> Result<u64, LineFail>
        requires { most ≤ 19 }
        ensures ok { IfOk result (λ n. number_at most self.old ≡ Some (n, self.new)) }
        ensures err { IfErr result (IsMisfit (number_at most self.old ≡ None)) }
    {
        match number_ahead(self.left, most) {
            Some((number, count)) => {
                self.left = &self.left[count..];
                Ok(number)
            }
            None => Err(LineFail::Text),
        }
    }

    /// What was found in a text, where all of it was taken: `Text` comes where a byte is left, and else `Range` where
    /// nothing was found.
    pub fn all<T: Drop>(self, found: Option<T>) -> Result<T, LineFail>
        ensures all { self.entry ≡ [] → result ≡ ok_or found LineFail.Range }
        ensures left { self.entry ≢ [] → result ≡ Err LineFail.Text }
    {
        if self.is_empty() {
            found.ok_or(LineFail::Range)
        } else {
            Err(LineFail::Text)
        }
    }

    // Takes one byte, where it is the next one.
    #[inline(always)]
    fn byte(&mut self, byte: u8) -> Result<(), LineFail>
        ensures ok { OnOk result (behind_byte byte self.old ≡ Some self.new) }
        ensures err { IfErr result (IsMisfit (behind_byte byte self.old ≡ None)) }
    {
        if !self.is_at(byte) {
            return Err(LineFail::Text);
        }
        self.left = &self.left[1..];
        Ok(())
    }

    // Takes the digits at the front, of which there may be so many.
    fn digits(&mut self, most: usize) -> Result<&'a [u8], LineFail>
        ensures ok { IfOk result (λ digits. IsDigitsOf most self.old digits.now self.new) }
        ensures err { IfErr result (IsMisfit (number_at most self.old ≡ None)) }
    {
        let count = digits_ahead(self.left);
        if count == 0 || count > most {
            return Err(LineFail::Text);
        }
        let (digits, left) = self.left.split_at(count);
        self.left = left;
        Ok(digits)
    }
}

// The number of the digits at the front, and how many there are: at least one and at most so many, or there is none.
// Each byte is looked at once.
#[inline(always)]
fn number_ahead(bytes: &[u8], most: usize) -> Option<(u64, usize)>
    requires { most ≤ 19 }
    ensures some { IfSome result (λ r. IsNumberAhead most bytes.now r.0 r.1) }
    ensures none { IfNone result (number_at most bytes.now ≡ None) }
{
    let mut number: u64 = 0;
    let mut count: usize = 0;
    while count < bytes.len() && bytes[count].is_ascii_digit() {
        if count == most {
            return None;
        }
        number = 10 * number + u64::from(bytes[count] - b'0');
        count += 1;
    }
    if count == 0 {
        return None;
    }
    Some((number, count))
}

// How many digits there are at the front.
fn digits_ahead(bytes: &[u8]) -> usize
    ensures digits { take result bytes.now ≡ digits_of bytes.now }
    ensures left { drop result bytes.now ≡ behind_digits bytes.now }
    ensures within { result ≤ length bytes.now }
{
    let mut count: usize = 0;
    while count < bytes.len() && bytes[count].is_ascii_digit() {
        count += 1;
    }
    count
}

// Decimal numerals: the number that digits spell, and the digits of a number.
ghost use Rattle.std.specs.Prelude.{◌≡◌, ◌≤◌, ◌<◌, ◌^◌, ◌↔◌, [], All, Any, decimal, IfNone, IfOk, IfSome, IsErrOf, drop, length, take};
ghost use Rattle.std.specs.Bool.{MatchBool};
ghost use Rattle.std.specs.Option.{SomeIff};
ghost use Rattle.mv_nums.specs.Numeral.{IsDigit, IsNumeralOf, SpellsAtLeast, SpellsNumber, append_digit, decimal_value};

use crate::NumberFault;
use itoa::Buffer;

// A number of so many digits is below 10^19, and so below 2^64.
const SHORT: usize = 19;

/// The number that decimal digits spell. Leading zeros are allowed, and any number of digits.
pub fn read_decimal(bytes: &[u8]) -> Result<u128, NumberFault>
    ensures ok { IfOk result (SpellsNumber bytes.now) }
    ensures empty { IsErrOf result NumberFault.Empty ↔ (bytes.now ≡ []) }
    ensures digit { IsErrOf result NumberFault.Digit ↔ Any (λ byte. ¬ IsDigit byte) bytes.now }
    ensures too_big { IsErrOf result NumberFault.TooBig ↔ SpellsAtLeast (2 ^ 128) bytes.now }
{
    if bytes.is_empty() {
        return Err(NumberFault::Empty);
    }
    if bytes.len() <= SHORT {
        return match short_number(bytes) {
            Some(number) => Ok(u128::from(number)),
            None => Err(NumberFault::Digit),
        };
    }
    if !are_digits(bytes) {
        return Err(NumberFault::Digit);
    }
    number_of(bytes).ok_or(NumberFault::TooBig)
}

/// Writes the decimal numeral at the front of `out`, and gives its length, which is at most 39.
pub fn print(value: u128, out: &mut [u8; 40]) -> usize
    ensures short { result ≤ 39 }
    ensures numeral { IsNumeralOf value (take result out.new) }
    ensures text { take result out.new ≡ decimal value }
    ensures rest { drop result out.new ≡ drop result out.old }
{
    let mut buffer = Buffer::new();
    let text = buffer.format(value).as_bytes();
    out[..text.len()].copy_from_slice(text);
    text.len()
}

// The number that few digits spell, unless a byte is no digit. Most numerals are so short.
fn short_number(bytes: &[u8]) -> Option<u64>
    requires { length bytes.now ≤ 19 }
    ensures digits { IfSome result
        (λ number. All IsDigit bytes.now × (number ≡ decimal_value bytes.now)) }
    ensures other { IfNone result (Any (λ byte. ¬ IsDigit byte) bytes.now) }
{
    let mut number: u64 = 0;
    for byte in bytes {
        if !byte.is_ascii_digit() {
            return None;
        }
        number = 10 * number + u64::from(*byte - b'0');
    }
    Some(number)
}

fn are_digits(bytes: &[u8]) -> bool
    ensures { MatchBool result (All IsDigit bytes.now) (Any (λ byte. ¬ IsDigit byte) bytes.now) }
{
    bytes.iter().all(|byte| byte.is_ascii_digit())
}

// The number that digits spell, if it is below 2^128.
#[tactic(auto, using(crate::proofs::Decimal::grows))]
fn number_of(digits: &[u8]) -> Option<u128>
    requires { All IsDigit digits.now }
    ensures { let number = decimal_value digits.now in SomeIff result (number < 2 ^ 128) number }
{
    let mut number: u128 = 0;
    for byte in digits {
        number = with_digit(number, *byte)?;
    }
    Some(number)
}

// The number with one more digit after it, if it is below 2^128.
fn with_digit(number: u128, byte: u8) -> Option<u128>
    requires { IsDigit byte }
    ensures { let longer = append_digit number byte in SomeIff result (longer < 2 ^ 128) longer }
{
    number.checked_mul(10)?.checked_add((byte - b'0') as u128)
}

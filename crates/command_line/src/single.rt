// What a single text says.
ghost use Rattle.std.specs.Prelude.{◌≡◌};
ghost use Rattle.command_line.specs.Asked.{adder_named, bits_asked, design_asked, design_named, kind_named, number_of, order_named, sign_named, widths_named, word_from};

use graph_core::{Order, Sign, Widths};
use graph_maker::{Adder, Design, Kind};
use mv_nums::read_decimal;

pub(crate) fn order_named(text: &str) -> Option<Order>
    ensures { result ≡ order_named text.now }
{
    match text {
        "separate" => Some(Order::Separate),
        "interleaved" => Some(Order::Interleaved),
        _ => None,
    }
}

pub(crate) fn sign_named(text: &str) -> Option<Sign>
    ensures { result ≡ sign_named text.now }
{
    match text {
        "unsigned" => Some(Sign::Unsigned),
        "signed" => Some(Sign::Signed),
        _ => None,
    }
}

// `corrected` is made without an addend alone, and the other kinds without one and with one.
fn design_named(add: bool, text: &str) -> Option<Design>
    ensures { result ≡ design_named add text.now }
{
    if text == "corrected" {
        return if add { None } else { Some(Design::Corrected) };
    }
    let kind = kind_named(text)?;
    Some(if add {
        Design::MultiplyAdd(kind)
    } else {
        Design::Multiplier(kind)
    })
}

/// The design of a kind with its bits: of one number of bits any design, and of two a multiplier without an addend.
pub(crate) fn design_asked(add: bool, kind: &str, bits: &str) -> Option<(Design, u32)>
    ensures { result ≡ design_asked add kind.now bits.now }
{
    match (bits_of(bits), widths_named(add, bits)) {
        (Some(bits), _) => Some((design_named(add, kind)?, bits)),
        (None, Some(Widths::Given { a, b, add: false })) => {
            Some((Design::OfWidths(kind_named(kind)?, b), a))
        }
        (None, _) => None,
    }
}

pub(crate) fn adder_named(text: &str) -> Option<Adder>
    ensures { result ≡ adder_named text.now }
{
    match text {
        "ripple" => Some(Adder::Ripple),
        "kogge" => Some(Adder::Kogge),
        "sklansky" => Some(Adder::Sklansky),
        _ => None,
    }
}

/// The number below 2^128 that decimal digits spell.
pub(crate) fn number_of(text: &str) -> Option<u128>
    ensures { result ≡ number_of text.now }
{
    read_decimal(text.as_bytes()).ok()
}

// A number of bits, from 1 to 64.
fn bits_of(text: &str) -> Option<u32>
    ensures { result ≡ bits_asked text.now }
{
    let bits = number_of(text)?;
    if 1 <= bits && bits <= 64 {
        Some(bits as u32)
    } else {
        None
    }
}

/// The widths of two operands: two numbers of bits with an x between them.
pub(crate) fn widths_named(add: bool, text: &str) -> Option<Widths>
    ensures { result ≡ widths_named add text.now }
{
    let (a, b) = text.split_once('x')?;
    let a = bits_of(a)?;
    let b = bits_of(b)?;
    Some(Widths::Given { a, b, add })
}

/// A number below 2^32, from a least one on.
pub(crate) fn word_from(least: u64, text: &str) -> Option<u64>
    ensures { result ≡ word_from least text.now }
{
    let number = number_of(text)?;
    if u128::from(least) <= number && number < 4294967296 {
        Some(number as u64)
    } else {
        None
    }
}

fn kind_named(text: &str) -> Option<Kind>
    ensures { result ≡ kind_named text.now }
{
    match text {
        "array" => Some(Kind::Array),
        "dadda" => Some(Kind::Dadda),
        _ => None,
    }
}

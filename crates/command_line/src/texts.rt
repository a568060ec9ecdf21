// The texts of a subcommand, each under its name.
ghost use Rattle.std.specs.Prelude.{◌≡◌, option_map};
ghost use Rattle.clap.specs.Words.{first_of, found_of, rows_of};
ghost use Rattle.command_line.specs.Asked.{addend_at, adder_named, claim_at, claim_asked, design_at, is_given, is_set, making_at, number_of, order_at, point_at, read_at, sign_at, task_at, version_at, widths_at, word_at, word_from};
ghost use Rattle.command_line.specs.Reading.{ReadsAsked};

use crate::defaults::{BUDGET, CONFLICTS};
use crate::fail::WordsFail;
use crate::making::Making;
use crate::point::Point;
use crate::single::{
    adder_named, design_asked, number_of, order_named, sign_named, widths_named, word_from,
};
use clap::ArgMatches;
use command_core::{FileName, Task};
use graph_core::{Claim, Order, Sign, Widths};
use graph_maker::{Adder, Design};
use std::alloc::Global;

pub(crate) fn file_at(
    alloc: Global,
    matches: &ArgMatches<'_>,
    name: &str,
) -> Result<FileName, WordsFail>
    ensures { ReadsAsked (first_of name.now (rows_of (found_of matches.now))) result }
{
    match text_at(matches, name) {
        Some(text) => Ok(FileName::new(alloc, text)?),
        None => Err(WordsFail::Usage),
    }
}

/// What is claimed, by an order, a kind of operands, the flag `add` and widths.
pub(crate) fn claim_at(matches: &ArgMatches<'_>) -> Option<Claim>
    ensures { result ≡ claim_at (rows_of (found_of matches.now)) }
{
    let order = order_at(matches)?;
    let sign = sign_at(matches)?;
    let widths = widths_at(matches, is_set(matches, "add"))?;
    claim_asked(order, sign, widths)
}

/// The operands that are given, and the addend where one is.
pub(crate) fn point_at(matches: &ArgMatches<'_>) -> Option<Point>
    ensures { result ≡ point_at (rows_of (found_of matches.now)) }
{
    let a = number_at(matches, "a")?;
    let b = number_at(matches, "b")?;
    let c = addend_at(matches)?;
    let order = order_at(matches)?;
    let widths = widths_at(matches, is_given(matches, "addend"))?;
    let claim = claim_asked(order, Sign::Unsigned, widths)?;
    Some(Point { claim, a, b, c })
}

/// What is asked of a graph: what is claimed, two bounds, and the greatest version of certificates.
pub(crate) fn task_at(matches: &ArgMatches<'_>) -> Option<Task>
    ensures { result ≡ task_at (rows_of (found_of matches.now)) }
{
    let claim = claim_at(matches)?;
    let budget = word_at(matches, "budget", 1, BUDGET)?;
    let conflicts = word_at(matches, "conflicts", 0, CONFLICTS)?;
    let version = version_at(matches)?;
    Some(Task {
        claim,
        budget,
        conflicts,
        version,
    })
}

/// A number below 2^32, from a least one on, or a default where none is named.
pub(crate) fn word_at(matches: &ArgMatches<'_>, name: &str, least: u64, default: u64) -> Option<u64>
    ensures { result ≡ word_at least default name.now (rows_of (found_of matches.now)) }
{
    match text_at(matches, name) {
        Some(text) => word_from(least, text),
        None => Some(default),
    }
}

// The greatest version of certificates that may be written: 1, 2, or 3, which is the default.
fn version_at(matches: &ArgMatches<'_>) -> Option<u8>
    ensures { result ≡ version_at (rows_of (found_of matches.now)) }
{
    match word_at(matches, "format", 1, 3)? {
        1 => Some(1),
        2 => Some(2),
        3 => Some(3),
        _ => None,
    }
}

/// A number below 2^32.
pub(crate) fn word_of(matches: &ArgMatches<'_>, name: &str) -> Option<u64>
    ensures { result ≡ read_at (word_from 0) name.now (rows_of (found_of matches.now)) }
{
    word_from(0, text_at(matches, name)?)
}

/// What is made: a design with its bits, and an adder.
pub(crate) fn making_at(matches: &ArgMatches<'_>) -> Option<Making>
    ensures { result ≡ making_at (rows_of (found_of matches.now)) }
{
    let (design, bits) = design_at(matches)?;
    let adder = adder_at(matches, "adder")?;
    Some(Making {
        design,
        bits,
        adder,
    })
}

// The design of the kind and the bits that are named, with the flag `add` or without it.
fn design_at(matches: &ArgMatches<'_>) -> Option<(Design, u32)>
    ensures { result ≡ design_at (rows_of (found_of matches.now)) }
{
    let kind = text_at(matches, "kind")?;
    let bits = text_at(matches, "bits")?;
    design_asked(is_set(matches, "add"), kind, bits)
}

fn adder_at(matches: &ArgMatches<'_>, name: &str) -> Option<Adder>
    ensures { result ≡ read_at adder_named name.now (rows_of (found_of matches.now)) }
{
    adder_named(text_at(matches, name)?)
}

// The order that is named, or `separate` where none is.
fn order_at(matches: &ArgMatches<'_>) -> Option<Order>
    ensures { result ≡ order_at (rows_of (found_of matches.now)) }
{
    match text_at(matches, "inputs") {
        Some(text) => order_named(text),
        None => Some(Order::Separate),
    }
}

// The kind of operands that is named, or `unsigned` where none is.
fn sign_at(matches: &ArgMatches<'_>) -> Option<Sign>
    ensures { result ≡ sign_at (rows_of (found_of matches.now)) }
{
    match text_at(matches, "operands") {
        Some(text) => sign_named(text),
        None => Some(Sign::Unsigned),
    }
}

// The widths that are named, or equal ones where none are; with an addend or without it.
fn widths_at(matches: &ArgMatches<'_>, add: bool) -> Option<Widths>
    ensures { result ≡ widths_at add (rows_of (found_of matches.now)) }
{
    match text_at(matches, "widths") {
        Some(text) => widths_named(add, text),
        None => Some(Widths::Equal { add }),
    }
}

// No rule says how operands of given widths interleave.
fn claim_asked(order: Order, sign: Sign, widths: Widths) -> Option<Claim>
    ensures { result ≡ claim_asked order sign widths }
{
    match (order, widths) {
        (Order::Interleaved, Widths::Given { .. }) => None,
        _ => Some(Claim {
            order,
            sign,
            widths,
        }),
    }
}

// The addend that is given, or 0.
fn addend_at(matches: &ArgMatches<'_>) -> Option<u128>
    ensures { result ≡ addend_at (rows_of (found_of matches.now)) }
{
    match text_at(matches, "addend") {
        Some(text) => number_of(text),
        None => Some(0),
    }
}

fn number_at(matches: &ArgMatches<'_>, name: &str) -> Option<u128>
    ensures { result ≡ read_at number_of name.now (rows_of (found_of matches.now)) }
{
    number_of(text_at(matches, name)?)
}

// Whether a text of this name is given.
fn is_given(matches: &ArgMatches<'_>, name: &str) -> bool
    ensures { result ≡ is_given name.now (rows_of (found_of matches.now)) }
{
    text_at(matches, name).is_some()
}

// The flag of this name is given.
fn is_set(matches: &ArgMatches<'_>, name: &str) -> bool
    ensures { result ≡ is_set name.now (rows_of (found_of matches.now)) }
{
    match text_at(matches, name) {
        Some(text) => text == "true",
        None => false,
    }
}

fn text_at<'a>(matches: &ArgMatches<'a>, name: &str) -> Option<&'a str>
    ensures { option_map (λ s. s.now) result ≡ first_of name.now (rows_of (found_of matches.now)) }
{
    matches.get_str(name)
}

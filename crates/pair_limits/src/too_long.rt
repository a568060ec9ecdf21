// The file of a pair that is past the limits.
ghost use Rattle.graph_core.specs.Text.JudgedLines.{IsWithin};
ghost use Rattle.mv_text.specs.LineReading.{lengths_of};
ghost use Rattle.pair_core.specs.Texts.{CanBeWritten, algebra_text, clauses_text};
ghost use Rattle.pair_limits.specs.Rooms.{TellsWhether};
ghost use Rattle.pair_limits.specs.TooLong.{IsFirstTooLong};

use crate::algebra::put_certificate;
use crate::clauses::put_clauses;
use crate::room::Room;
use crate::surely::is_surely_within;
use mv_desk::{Limits, Slot};
use pair_core::Pair;

/// The first file of a pair that is too long, or has a line that is: `Clauses` or `Algebra`. With None the pair is
/// within the limits.
pub fn first_too_long(pair: &Pair, limits: &Limits) -> Option<Slot>
    requires { CanBeWritten pair.now }
    ensures { IsFirstTooLong (lengths_of limits.now) (clauses_text pair.now) (algebra_text pair.now) result }
{
    if !has_short_clauses(pair, limits) {
        Some(Slot::Clauses)
    } else if !has_short_algebra(pair, limits) {
        Some(Slot::Algebra)
    } else {
        None
    }
}

// Whether the clause file is within the limits.
fn has_short_clauses(pair: &Pair, limits: &Limits) -> bool
    ensures { TellsWhether result (IsWithin (lengths_of limits.now) (clauses_text pair.now)) }
{
    let mut room = Room::new(limits);
    put_clauses(&mut room, &pair.header, &pair.clauses);
    !room.over
}

// Whether the algebra file is.
fn has_short_algebra(pair: &Pair, limits: &Limits) -> bool
    requires { CanBeWritten pair.now }
    ensures { TellsWhether result (IsWithin (lengths_of limits.now) (algebra_text pair.now)) }
{
    let version = pair.header.version;
    if is_surely_within(version, &pair.terms, &pair.algebra, pair.closing, limits) {
        return true;
    }
    let mut room = Room::new(limits);
    put_certificate(&mut room, version, &pair.terms, &pair.algebra, pair.closing);
    !room.over
}

// How many bytes one call moves.
ghost use Rattle.std.specs.Prelude.{◌≡◌, ◌<◌, ◌≤◌, ◌+◌, ◌++◌, true, [], length, take, drop, min, OnOk, OnErr};
ghost use Rattle.mv_desk.specs.Memory.{is_written, StandsAtFirst, WritesInto};

use super::files::Files;
use super::place::Place;
use std::alloc::AllocError;

/// Gives the bytes from a place on, at most so many.
pub fn give(bytes: &[u8], start: usize, most: usize, into: &mut [u8]) -> usize
    requires most { 0 < most }
    requires start { start ≤ length bytes.now }
    ensures count { result ≡ min most (min (length into.old) (length (drop start bytes.now))) }
    ensures within { result ≤ length into.new }
    ensures bytes { drop start bytes.now ≡ take result into.new ++ drop (start + result) bytes.now }
    ensures end { result ≡ 0 → 0 < length into.new → drop start bytes.now ≡ [] }
    ensures fits { start + result ≤ length bytes.now }
{
    let rest = &bytes[start..];
    let count = most.min(into.len()).min(rest.len());
    into[..count].copy_from_slice(&rest[..count]);
    count
}

/// Appends to a place, and to its file.
pub fn append(files: &mut Files, place: &mut Place, piece: &[u8]) -> Result<(), AllocError>
    requires writing { is_written place.old ≡ true }
    requires fits { StandsAtFirst files.old place.old }
    ensures ok { OnOk result (WritesInto piece.now files.old place.old files.new place.new) }
    ensures err_files { OnErr result (files.new ≡ files.old) }
    ensures err_place { OnErr result (place.new ≡ place.old) }
{
    match place {
        Place::Printing { written } => written.append(piece),
        Place::Writing { file, written } => {
            let before = written.as_slice().len();
            written.append(piece)?;
            if files.append(*file, piece).is_err() {
                written.truncate(before);
                return Err(AllocError);
            }
            Ok(())
        }
        _ => unreachable!(),
    }
}

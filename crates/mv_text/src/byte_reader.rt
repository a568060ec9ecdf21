// Bytes of a slot, read piece by piece.
ghost use Rattle.std.specs.Prelude.{◌≡◌, ◌≢◌, ◌<◌, ◌≤◌, ◌↔◌, [], ◌∷◌, All, drop, length, take, true, None, IsTrue, OnOk, OnErr, IfOk, option_to_list};
ghost use Rattle.std.specs.Io.KnownBytes.{Consumes, IsAtEnd, Keeps};
ghost use Rattle.graph_core.specs.Text.{newline};
ghost use Rattle.mv_desk.specs.Calls.{HasReadCause, Reads};
ghost use Rattle.mv_text.specs.LineReading.{known_from};

use crate::room::ROOM;
use memchr::memchr;
use mv_desk::{Desk, Failed, Slot};
use std::marker::Model;

/// Reads a slot of a desk by pieces. Contracts see the bytes of the piece that are still ahead.
#[derive(Drop)]
pub struct ByteReader {
    buffer: [u8; ROOM],
    start: usize,
    end: usize,
}

impl Model for ByteReader {
    ghost use Rattle.std.specs.Prelude.{List, ℕ, ◌≤◌, slice_range};
    ghost use Rattle.mv_text.specs.declared.room.TheConstants.{ROOM};

    ghost Value = { List ℕ };

    ghost view = { λ r. slice_range r.buffer r.start r.end };

    ghost invariant = { λ r. (r.start ≤ r.end) × (r.end ≤ ROOM) };
}

impl ByteReader {
    pub fn new() -> ByteReader
        ensures { result ≡ [] }
    {
        ByteReader {
            buffer: [0; ROOM],
            start: 0,
            end: 0,
        }
    }

    /// The bytes ahead up to a line feed, and at most so many.
    pub fn plain(&self, most: u64) -> &[u8]
        ensures plain { All (λ b. b ≢ newline) result.now }
        ensures front { result.now ≡ take (length result.now) self.now }
        ensures few { length result.now ≤ most }
    {
        let ahead = &self.buffer[self.start..self.end];
        let count = (ahead.len() as u64).min(most) as usize;
        let front = &ahead[..count];
        &front[..line_end(front)]
    }

    /// Takes so many bytes of those ahead.
    pub fn skip(&mut self, count: usize)
        requires { count ≤ length self.old }
        ensures { self.new ≡ drop count self.old }
    {
        self.start += count;
    }

    /// The next byte, or none at the end of the input.
    pub fn next<D: Desk>(&mut self, desk: &mut D, slot: Slot) -> Result<Option<u8>, Failed>
        requires { (D.seen desk.old).reads slot ≡ true }
        ensures piece { length self.new < ROOM }
        ensures bytes { IfOk result (λ b. Consumes (known_from self.old ((D.seen desk.old).left slot))
            (known_from self.new ((D.seen desk.new).left slot)) (option_to_list b)) }
        ensures end { result ≡ Ok None → IsAtEnd
            (known_from self.new ((D.seen desk.new).left slot)) }
        ensures reads { Reads slot (D.seen desk.old) (D.seen desk.new) result }
        ensures cause { HasReadCause (D.seen desk.old) (D.seen desk.new) result }
    {
        if self.is_empty() {
            self.fill(desk, slot)?;
            if self.is_empty() {
                return Ok(None);
            }
        }
        Ok(Some(self.take()))
    }

    // Reads the next piece. There is none at the end of the input.
    fn fill<D: Desk>(&mut self, desk: &mut D, slot: Slot) -> Result<(), Failed>
        requires empty { self.old ≡ [] }
        requires open { (D.seen desk.old).reads slot ≡ true }
        ensures same { Keeps ((D.seen desk.old).left slot)
            (known_from self.new ((D.seen desk.new).left slot)) }
        ensures end { OnOk result (self.new ≡ [] → IsAtEnd ((D.seen desk.new).left slot)) }
        ensures failed { OnErr result (self.new ≡ []) }
        ensures reads { Reads slot (D.seen desk.old) (D.seen desk.new) result }
        ensures cause { HasReadCause (D.seen desk.old) (D.seen desk.new) result }
    {
        let count = desk.read(slot, &mut self.buffer);
        self.start = 0;
        match count {
            Ok(count) => {
                self.end = count;
                Ok(())
            }
            Err(Failed) => {
                self.end = 0;
                Err(Failed)
            }
        }
    }

    fn is_empty(&self) -> bool
        ensures { IsTrue result ↔ (self.now ≡ []) }
    {
        self.start == self.end
    }

    fn take(&mut self) -> u8
        requires { self.old ≢ [] }
        ensures first { self.old ≡ result ∷ self.new }
        ensures piece { length self.new < ROOM }
    {
        let byte = self.buffer[self.start];
        self.start += 1;
        byte
    }
}

// Where the first line feed is, or else the end.
fn line_end(bytes: &[u8]) -> usize
    ensures within { result ≤ length bytes.now }
    ensures plain { All (λ b. b ≢ newline) (take result bytes.now) }
{
    match memchr(b'\n', bytes) {
        Some(end) => end,
        None => bytes.len(),
    }
}

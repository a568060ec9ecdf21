// Texts that wait to be written to a slot.
ghost use Rattle.std.specs.Prelude.{◌≡◌, ◌≤◌, ◌+◌, ◌++◌, [], true, decimal, length, Ok};
ghost use Rattle.mv_text.specs.Puts.{Flushes, Puts};

use crate::room::ROOM;
use mv_desk::{Desk, Slot, WriteFault, write_all};
use mv_nums::print;
use std::marker::Model;

/// The bytes that are still to be written to a slot of a desk.
///
/// Once a write has failed no other byte is written, and `flush` says so.
#[derive(Drop)]
pub struct Output {
    slot: Slot,
    bytes: [u8; ROOM],
    len: usize,
    result: Result<(), WriteFault>,
}

impl Model for Output {
    ghost use Rattle.std.specs.Prelude.{◌≤◌, take};
    ghost use Rattle.mv_text.specs.declared.room.TheConstants.{ROOM};
    ghost use Rattle.mv_text.specs.Puts.{Pending};

    ghost Value = { Pending };

    ghost view = { λ o. record { slot = o.slot; waits = take o.len o.bytes; result = o.result } };

    ghost invariant = { λ o. o.len ≤ ROOM };
}

impl Output {
    pub fn new(slot: Slot) -> Output
        ensures { result ≡ record { slot = slot; waits = []; result = Ok tt } }
    {
        Output {
            slot,
            bytes: [0; ROOM],
            len: 0,
            result: Ok(()),
        }
    }

    /// Appends a piece of a text, and writes what waits where there is no room.
    pub fn put<D: Desk>(&mut self, desk: &mut D, piece: &[u8])
        requires open { (D.seen desk.old).writes self.old.slot ≡ true }
        requires fits { length piece.now ≤ ROOM }
        ensures open { (D.seen desk.new).writes self.new.slot ≡ true }
        ensures puts { Puts piece.now self.old self.new (D.seen desk.old) (D.seen desk.new) }
    {
        if piece.len() > ROOM - self.len {
            self.write(desk);
        }
        self.append(piece);
    }

    /// Appends a decimal numeral.
    pub fn put_number<D: Desk>(&mut self, desk: &mut D, number: u128)
        requires open { (D.seen desk.old).writes self.old.slot ≡ true }
        ensures open { (D.seen desk.new).writes self.new.slot ≡ true }
        ensures puts { Puts (decimal number) self.old self.new (D.seen desk.old) (D.seen desk.new) }
    {
        let mut text = [0u8; 40];
        let len = print(number, &mut text);
        self.put(desk, &text[..len]);
    }

    /// Writes what waits, and says whether each write was done.
    pub fn flush<D: Desk>(&self, desk: &mut D) -> Result<(), WriteFault>
        requires open { (D.seen desk.old).writes self.now.slot ≡ true }
        ensures open { (D.seen desk.new).writes self.now.slot ≡ true }
        ensures flushes { Flushes self.now result (D.seen desk.old) (D.seen desk.new) }
    {
        match self.result {
            Ok(()) => write_all(desk, self.slot, &self.bytes[..self.len]),
            Err(fault) => Err(fault),
        }
    }

    fn write<D: Desk>(&mut self, desk: &mut D)
        requires open { (D.seen desk.old).writes self.old.slot ≡ true }
        ensures open { (D.seen desk.new).writes self.new.slot ≡ true }
        ensures empty { self.new.waits ≡ [] }
        ensures puts { Puts [] self.old self.new (D.seen desk.old) (D.seen desk.new) }
    {
        self.result = self.flush(desk);
        self.len = 0;
    }

    fn append(&mut self, piece: &[u8])
        requires { length self.old.waits + length piece.now ≤ ROOM }
        ensures slot { self.new.slot ≡ self.old.slot }
        ensures waits { self.new.waits ≡ self.old.waits ++ piece.now }
        ensures result { self.new.result ≡ self.old.result }
    {
        let end = self.len + piece.len();
        self.bytes[self.len..end].copy_from_slice(piece);
        self.len = end;
    }
}

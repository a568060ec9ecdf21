// What one slot has open on the machine.
ghost use Rattle.std.specs.Prelude.{◌≡◌, true, false};
ghost use Rattle.std.specs.Io.{ReadsAtMost, WritesAtMost};
ghost use Rattle.std.specs.Io.KnownBytes.{ReadConsumes, WriteAppends};

use std::io;
use std::io::{Read, Write};

/// What a slot has open.
#[derive(Drop)]
pub enum Channel<F> {
    Closed,
    /// Standard output.
    Standard,
    Reading(F),
    Writing(F),
}

impl<F: Read + Write + Drop> Channel<F> {
    ghost use Rattle.mv_desk.specs.Real.{contents_of, is_reading, is_writing, remaining_of};

    pub fn read(&mut self, into: &mut [u8]) -> io::Result<usize>
        requires { is_reading self.old ≡ true }
        ensures bound { ReadsAtMost result into.new }
        ensures bytes { ReadConsumes (remaining_of F.remaining self.old)
            (remaining_of F.remaining self.new) result into.new }
        ensures reading { is_reading self.new ≡ true }
        ensures not_writing { is_writing self.new ≡ false }
    {
        match self {
            Channel::Reading(file) => file.read(into),
            _ => unreachable!(),
        }
    }

    pub fn write(&mut self, rt: &impl Print, piece: &[u8]) -> io::Result<usize>
        requires { is_writing self.old ≡ true }
        ensures bound { WritesAtMost result piece.now }
        ensures bytes { WriteAppends (contents_of F.contents self.old)
            (contents_of F.contents self.new) result piece.now }
        ensures writing { is_writing self.new ≡ true }
        ensures not_reading { is_reading self.new ≡ false }
    {
        match self {
            Channel::Standard => io::writer(rt).write(piece),
            Channel::Writing(file) => file.write(piece),
            _ => unreachable!(),
        }
    }
}

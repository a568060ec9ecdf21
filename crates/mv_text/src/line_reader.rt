// Lines of a file in a slot, within their lengths.
ghost use Rattle.std.specs.Prelude.{◌≡◌, ◌<◌, ◌≤◌, ◌+◌, [], length, true, IfOk, IfErr, OnOk, OnErr, IfSome, IfNone, option_to_list};
ghost use Rattle.std.specs.Io.KnownBytes.{Consumes, IsAtEnd};
ghost use Rattle.mv_desk.specs.Calls.{Reads};
ghost use Rattle.mv_text.specs.CertificateFiles.{IsNeededFault};
ghost use Rattle.mv_text.specs.LineReading.{FitsPiece, TakesPlain, known_from, lengths_of, TakesLine, EndsIn, IsByteFault, IsLineFault};

use crate::byte_reader::ByteReader;
use crate::line_fail::LineFail;
use mv_desk::{Desk, Failed, Limits, Slot};
use std::alloc::Global;
use std::marker::Model;

/// Reads the lines of a certificate from a slot of a desk, and meets the lengths at their places.
///
/// It asks for 4,096 bytes at a time. Contracts see the bytes of the piece in hand, of which there are
/// fewer, how many bytes were taken before them, and the lengths that are allowed.
#[derive(Drop)]
pub struct LineReader {
    bytes: ByteReader,
    taken: u64,
    file: u64,
    line: u64,
}

impl Model for LineReader {
    ghost use Rattle.std.specs.Prelude.{◌<◌, ◌≤◌, length};
    ghost use Rattle.mv_text.specs.declared.room.TheConstants.{ROOM};
    ghost use Rattle.mv_text.specs.LineReading.{Lines};

    ghost Value = { Lines };

    ghost view = { λ r. record
        { ahead = r.bytes; taken = r.taken; lengths = record { file = r.file; line = r.line } } };

    ghost invariant = { λ r. (r.taken ≤ r.file) × (length r.bytes < ROOM) };
}

impl LineReader {
    /// A reader of a file of which nothing is taken yet.
    pub fn new(limits: &Limits) -> LineReader
        ensures ahead { result.ahead ≡ [] }
        ensures taken { result.taken ≡ 0 }
        ensures lengths { result.lengths ≡ lengths_of limits.now }
    {
        LineReader {
            bytes: ByteReader::new(),
            taken: 0,
            file: limits.certificate,
            line: limits.line,
        }
    }

    /// The next line without its line feed, or none at the end of the file.
    ///
    /// `Text` comes where the file ends after some bytes of a line, and `TooLong` where the line is
    /// longer than a line may be, or holds the first byte past the limit of the file.
    pub fn next_line<D: Desk>(
        &mut self,
        alloc: Global,
        desk: &mut D,
        slot: Slot,
    ) -> Result<Option<Vec<u8>>, LineFail>
        requires { (D.seen desk.old).reads slot ≡ true }
        ensures line { IfOk result (λ r. IfSome r (λ line. TakesLine self.old self.new
            (known_from self.old.ahead ((D.seen desk.old).left slot))
            (known_from self.new.ahead ((D.seen desk.new).left slot)) line.items)) }
        ensures end { IfOk result (λ r. IfNone r (IfSome (known_from self.old.ahead ((D.seen desk.old).left slot))
            (λ left. (left ≡ []) × EndsIn self.old left))) }
        ensures fault { IfErr result (IsLineFault self.old (known_from self.old.ahead ((D.seen desk.old).left slot))
            (D.seen desk.old).read_faults (D.seen desk.new).read_faults) }
        ensures piece { FitsPiece self.new }
        ensures lengths { self.new.lengths ≡ self.old.lengths }
        ensures reads { Reads slot (D.seen desk.old) (D.seen desk.new) result }
    {
        let mut line = Vec::new(alloc);
        self.take_plain(&mut line)?;
        loop {
            match self.next_byte(desk, slot) {
                Ok(None) if line.is_empty() => return Ok(None),
                Ok(None) => return Err(LineFail::Text),
                Ok(Some(b'\n')) => return Ok(Some(line)),
                Ok(Some(byte)) => {
                    if line.len() as u64 == self.longest() {
                        return Err(LineFail::TooLong);
                    }
                    if line.push(byte).is_err() {
                        return Err(LineFail::Memory);
                    }
                    self.take_plain(&mut line)?;
                }
                Err(fail) => return Err(fail),
            }
        }
    }

    /// The next line, which has to be there: `Text` comes also at the end of the file.
    pub fn needed_line<D: Desk>(
        &mut self,
        alloc: Global,
        desk: &mut D,
        slot: Slot,
    ) -> Result<Vec<u8>, LineFail>
        requires { (D.seen desk.old).reads slot ≡ true }
        ensures line { IfOk result (λ line. TakesLine self.old self.new
            (known_from self.old.ahead ((D.seen desk.old).left slot))
            (known_from self.new.ahead ((D.seen desk.new).left slot)) line.items) }
        ensures fault { IfErr result (IsNeededFault self.old (known_from self.old.ahead ((D.seen desk.old).left slot))
            (D.seen desk.old).read_faults (D.seen desk.new).read_faults) }
        ensures piece { FitsPiece self.new }
        ensures lengths { self.new.lengths ≡ self.old.lengths }
        ensures reads { Reads slot (D.seen desk.old) (D.seen desk.new) result }
    {
        match self.next_line(alloc, desk, slot) {
            Ok(Some(line)) => Ok(line),
            Ok(None) => Err(LineFail::Text),
            Err(fail) => Err(fail),
        }
    }

    // Takes the bytes of the piece in hand that go on with a line, as far as the lengths allow.
    fn take_plain(&mut self, line: &mut Vec<u8>) -> Result<(), LineFail>
        requires { length line.old.items ≤ self.old.lengths.line }
        ensures ok { OnOk result (TakesPlain self.old self.new line.old.items line.new.items) }
        ensures err { IfErr result (λ fail. fail ≡ LineFail.Memory) }
        ensures same { OnErr result (self.new ≡ self.old) }
        ensures piece { FitsPiece self.new }
    {
        let room = (self.line - line.len() as u64).min(self.file - self.taken);
        let part = self.bytes.plain(room);
        let count = part.len();
        if line.extend_from_slice(part).is_err() {
            return Err(LineFail::Memory);
        }
        self.bytes.skip(count);
        self.taken += count as u64;
        Ok(())
    }

    // The next byte, or none at the end of the file.
    fn next_byte<D: Desk>(&mut self, desk: &mut D, slot: Slot) -> Result<Option<u8>, LineFail>
        requires { (D.seen desk.old).reads slot ≡ true }
        ensures bytes { IfOk result (λ b. Consumes (known_from self.old.ahead ((D.seen desk.old).left slot))
            (known_from self.new.ahead ((D.seen desk.new).left slot)) (option_to_list b)) }
        ensures taken { IfOk result
            (λ b. self.new.taken ≡ self.old.taken + length (option_to_list b)) }
        ensures within { self.new.taken ≤ self.new.lengths.file }
        ensures piece { FitsPiece self.new }
        ensures end { IfOk result
            (λ b. IfNone b (IsAtEnd (known_from self.new.ahead ((D.seen desk.new).left slot)))) }
        ensures fault { IfErr result (IsByteFault self.old (known_from self.old.ahead ((D.seen desk.old).left slot))
            (D.seen desk.old).read_faults (D.seen desk.new).read_faults) }
        ensures lengths { self.new.lengths ≡ self.old.lengths }
        ensures reads { Reads slot (D.seen desk.old) (D.seen desk.new) result }
    {
        match self.bytes.next(desk, slot) {
            Ok(None) => Ok(None),
            Ok(Some(_)) if self.taken == self.file => Err(LineFail::TooLong),
            Ok(Some(byte)) => {
                self.taken += 1;
                Ok(Some(byte))
            }
            Err(Failed) => Err(LineFail::Fault),
        }
    }

    // How many bytes a line may have.
    fn longest(&self) -> u64
        ensures { result ≡ self.now.lengths.line }
    {
        self.line
    }
}

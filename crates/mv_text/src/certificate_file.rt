// A certificate read line by line, whatever its lines say.
ghost use Rattle.std.specs.Prelude.{◌≡◌, ◌≢◌, ◌+◌, ◌<◌, ◌≤◌, ◌^◌, ◌⊎◌, ◌++◌, ◌∷◌, [], length, true, false, None, Ok, Err, IfErr, IfOk, IfSome};
ghost use Rattle.std.specs.List.{AllByRecursion};
ghost use Rattle.std.specs.Result.{result_err};
ghost use Rattle.graph_core.specs.Text.{newline};
ghost use Rattle.mv_desk.specs.Calls.{Reads};
ghost use Rattle.mv_text.specs.CertificateFiles.{AnswersAgain, GivesEnd, GivesLine, GivesNeeded, GoesOn, HasAnyFirst, HasFirstLine, IsAnyRefusal, IsFirstRefusal, IsStarted, KeepsFile, left_of_file, settled};
ghost use Rattle.mv_text.specs.LineReading.{FitsPiece, lengths_of};

use crate::line_fail::LineFail;
use crate::line_reader::LineReader;
use mv_desk::{Desk, Limits, Slot};
use std::alloc::Global;
use std::marker::Model;

/// A certificate whose lines are counted. After its end or a failure it gives the same answer again.
///
/// Contracts see its version, the bytes of the piece in hand, how many bytes were taken before them, the lengths that
/// are allowed, how many lines were read or refused, whether the end was met, and the answer from the first failure
/// on.
#[derive(Drop)]
pub struct CertificateFile {
    version: u8,
    lines: LineReader,
    number: u64,
    ended: bool,
    failed: Option<LineFail>,
}

impl Model for CertificateFile {
    ghost use Rattle.mv_text.specs.CertificateFiles.{FileState, IsCounted};

    ghost Value = { FileState };

    ghost view = { λ f. record
        { version = f.version; lines = f.lines; number = f.number; ended = f.ended; failed = f.failed } };

    ghost invariant = { λ f. IsCounted (record
        { version = f.version; lines = f.lines; number = f.number; ended = f.ended; failed = f.failed }) };
}

impl CertificateFile {
    /// Reads the first line, which has to be this text: `Text` comes where another line stands there, or none with its
    /// line feed, and `TooLong` where the line is too long or holds the first byte past the limit of the file.
    pub fn start<D: Desk>(
        alloc: Global,
        desk: &mut D,
        slot: Slot,
        version: u8,
        first: &[u8],
        limits: &Limits,
    ) -> Result<CertificateFile, LineFail>
        requires reads { (D.seen desk.old).reads slot ≡ true }
        requires plain { AllByRecursion (λ b. b ≢ newline) first.now }
        requires some { 0 < length first.now }
        ensures first { IfOk result (λ file. IfSome ((D.seen desk.old).left slot)
            (λ bytes. HasFirstLine (first.now ++ newline ∷ []) file.lines bytes
            (left_of_file slot file (D.seen desk.new)))) }
        ensures refused { IfErr result (IsFirstRefusal (first.now ++ newline ∷ []) (lengths_of limits.now)
            ((D.seen desk.old).left slot) (D.seen desk.old).read_faults (D.seen desk.new).read_faults) }
        ensures file { IfOk result (IsStarted version 1 limits.now) }
        ensures reads { Reads slot (D.seen desk.old) (D.seen desk.new) result }
    {
        let mut lines = LineReader::new(limits);
        match lines.needed_line(alloc, desk, slot) {
            Ok(line) => {
                if line.as_slice() == first {
                    return Ok(CertificateFile::behind(lines, version));
                }
                Err(LineFail::Text)
            }
            Err(fail) => Err(fail),
        }
    }

    /// Reads the first line as `start` does, where certificates of the versions 1, 2 and 3 begin with a text each.
    pub fn start_any<D: Desk>(
        alloc: Global,
        desk: &mut D,
        slot: Slot,
        one: &[u8],
        two: &[u8],
        three: &[u8],
        limits: &Limits,
    ) -> Result<CertificateFile, LineFail>
        requires reads { (D.seen desk.old).reads slot ≡ true }
        requires plain { AllByRecursion (λ b. b ≢ newline) one.now × AllByRecursion (λ b. b ≢ newline) two.now ×
            AllByRecursion (λ b. b ≢ newline) three.now }
        requires some { (0 < length one.now) × (0 < length two.now) × (0 < length three.now) }
        ensures version { IfOk result (λ file. (file.version ≡ 1) ⊎ (file.version ≡ 2) ⊎ (file.version ≡ 3)) }
        ensures first { IfOk result (λ file. IfSome ((D.seen desk.old).left slot)
            (λ bytes. HasAnyFirst (one.now ++ newline ∷ []) (two.now ++ newline ∷ []) (three.now ++ newline ∷ [])
            file bytes (left_of_file slot file (D.seen desk.new)))) }
        ensures refused { IfErr result (IsAnyRefusal (one.now ++ newline ∷ []) (two.now ++ newline ∷ [])
            (three.now ++ newline ∷ []) (lengths_of limits.now) ((D.seen desk.old).left slot)
            (D.seen desk.old).read_faults (D.seen desk.new).read_faults) }
        ensures file { IfOk result (λ file. IsStarted file.version 1 limits.now file) }
        ensures reads { Reads slot (D.seen desk.old) (D.seen desk.new) result }
    {
        let mut lines = LineReader::new(limits);
        match lines.needed_line(alloc, desk, slot) {
            Ok(line) => {
                if line.as_slice() == one {
                    return Ok(CertificateFile::behind(lines, 1));
                }
                if line.as_slice() == two {
                    return Ok(CertificateFile::behind(lines, 2));
                }
                if line.as_slice() == three {
                    return Ok(CertificateFile::behind(lines, 3));
                }
                Err(LineFail::Text)
            }
            Err(fail) => Err(fail),
        }
    }

    // A certificate of this version of which the first line was read.
    fn behind(lines: LineReader, version: u8) -> CertificateFile
        requires counted { 1 < lines.taken }
        requires within { lines.taken ≤ lines.lengths.file }
        requires small { lines.lengths.file < 2 ^ 64 }
        requires piece { FitsPiece lines }
        ensures version { result.version ≡ version }
        ensures lines { result.lines ≡ lines }
        ensures number { result.number ≡ 1 }
        ensures goes_on { GoesOn result }
    {
        CertificateFile {
            version,
            lines,
            number: 1,
            ended: false,
            failed: None,
        }
    }

    /// The next line as it stands there, or none at the end of the file.
    pub fn next_line<D: Desk>(
        &mut self,
        alloc: Global,
        desk: &mut D,
        slot: Slot,
    ) -> Result<Option<Vec<u8>>, LineFail>
        requires { (D.seen desk.old).reads slot ≡ true }
        ensures next { GoesOn self.old → GivesLine slot self.old self.new
            (D.seen desk.old) (D.seen desk.new) result }
        ensures again { AnswersAgain (Ok None) self.old self.new result }
        ensures keeps { KeepsFile self.old self.new result }
        ensures reads { Reads slot (D.seen desk.old) (D.seen desk.new) result }
    {
        if let Some(fail) = self.failed {
            return Err(fail);
        }
        if self.ended {
            return Ok(None);
        }
        match self.lines.next_line(alloc, desk, slot) {
            Ok(Some(line)) => {
                self.number += 1;
                Ok(Some(line))
            }
            Ok(None) => {
                self.ended = true;
                Ok(None)
            }
            Err(fail) => {
                self.number += 1;
                self.failed = Some(fail);
                Err(fail)
            }
        }
    }

    /// The next line, which has to be there: the end of the file is `Text`.
    pub fn needed_line<D: Desk>(
        &mut self,
        alloc: Global,
        desk: &mut D,
        slot: Slot,
    ) -> Result<Vec<u8>, LineFail>
        requires { (D.seen desk.old).reads slot ≡ true }
        ensures next { GoesOn self.old → GivesNeeded slot self.old self.new
            (D.seen desk.old) (D.seen desk.new) result }
        ensures again { AnswersAgain (Err LineFail.Text) self.old self.new result }
        ensures keeps { KeepsFile self.old self.new result }
        ensures reads { Reads slot (D.seen desk.old) (D.seen desk.new) result }
    {
        match self.next_line(alloc, desk, slot) {
            Ok(Some(line)) => Ok(line),
            Ok(None) => {
                self.number += 1;
                self.failed = Some(LineFail::Text);
                Err(LineFail::Text)
            }
            Err(fail) => Err(fail),
        }
    }

    /// Whether the file ends here: `TooLong` comes where a line is left that is too long, and `Text` where any other
    /// byte is left.
    pub fn end<D: Desk>(&mut self, alloc: Global, desk: &mut D, slot: Slot) -> Result<(), LineFail>
        requires { (D.seen desk.old).reads slot ≡ true }
        ensures end { GoesOn self.old → GivesEnd slot self.old self.new
            (D.seen desk.old) (D.seen desk.new) result }
        ensures again { AnswersAgain (Ok tt) self.old self.new result }
        ensures keeps { KeepsFile self.old self.new result }
        ensures reads { Reads slot (D.seen desk.old) (D.seen desk.new) result }
    {
        match self.next_line(alloc, desk, slot) {
            Ok(None) => Ok(()),
            Ok(Some(_)) => {
                self.failed = Some(LineFail::Text);
                Err(LineFail::Text)
            }
            Err(fail) => Err(fail),
        }
    }

    /// What was read of the last line: from its failure on this is the answer.
    pub fn settle<T>(&mut self, read: Result<T, LineFail>) -> Result<T, LineFail>
        requires { self.old.failed ≡ None }
        ensures read { result ≡ read }
        ensures settled { self.new ≡ settled self.old (result_err read) }
    {
        if let Err(fail) = &read {
            self.failed = Some(*fail);
        }
        read
    }

    /// The version, as it was given.
    pub fn version(&self) -> u8
        ensures { result ≡ self.now.version }
    {
        self.version
    }

    /// How many lines were read, from the first one on; after an error the number of its line.
    pub fn line_no(&self) -> u64
        ensures { result ≡ self.now.number }
    {
        self.number
    }
}

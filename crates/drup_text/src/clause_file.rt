// A certificate read line by line.
ghost use Rattle.std.specs.Prelude.{◌≡◌, ◌+◌, ◌<◌, ◌≤◌, ◌^◌, ◌⊎◌, ◌∷◌, true, false, List, ℕ, [], Some, None, IfOk, IfErr, IfSome, IfNone, OnErr, OnOk, length, option_to_list};
ghost use Rattle.std.specs.Result.{result_err};
ghost use Rattle.mv_desk.specs.Calls.{Reads};
ghost use Rattle.mv_desk.specs.declared.slot.Slot.TheVariants.{Clauses};
ghost use Rattle.mv_text.specs.LineReading.{lengths_of};
ghost use Rattle.ripple_graft.specs.Blocks.{IsCut, block_of};
ghost use Rattle.drup_text.specs.ClauseTexts.{IsClauseLine};
ghost use Rattle.mv_text.specs.CertificateFiles.{AnswersAgain, GoesOn, HasFirstLine, IsStarted, KeepsFile, ReadsLine, left_of_file};
ghost use Rattle.drup_text.specs.PassingHeaders.{HasClauseHeader, IsStartRefusal, header_line_count};
ghost use Rattle.drup_text.specs.HeaderSteps.{ReadsHeaderPart, blocks_version_part, version_part};
ghost use Rattle.drup_text.specs.Headers.{IsHeaderOf};
ghost use Rattle.ripple_graft.specs.HeaderBlocks.{AreHeaderBlocks};
ghost use Rattle.drup_text.specs.LineTexts.{IsClauseLineInRange, IsClauseTextOf};
ghost use Rattle.drup_text.specs.SameFiles.{IsSameStartRefusal, same_line};

use crate::beside::beside;
use crate::blocks::listed_blocks;
use crate::fault::StartFail;
use crate::head::Header;
use crate::header::cut;
use crate::line_reading::read_line;
use clause_core::Line;
use graph_core::Graph;
use mv_desk::{Desk, Limits, Slot};
use mv_text::{CertificateFile, LineFail};
use ripple_graft::{Beside, Block, BlockList, Cut};
use std::alloc::Global;
use std::marker::Model;

/// A clause certificate that is read line by line from the slot `Clauses` of a desk.
///
/// Contracts see its version, the bytes of the piece in hand, how many bytes were taken before them, the lengths that
/// are allowed, how many lines were read or refused, whether the end was met, and the answer from the first failure
/// on.
#[derive(Drop)]
pub struct ClauseFile {
    alloc: Global,
    file: CertificateFile,
}

impl Model for ClauseFile {
    ghost use Rattle.mv_text.specs.CertificateFiles.{FileState};

    ghost Value = { FileState };

    ghost view = { λ f. f.file };
}

impl ClauseFile {
    /// Reads the header, and answers it: its version, and the blocks or what stands beside; the graph takes them.
    ///
    /// `Text` comes where a line of the header isn't there as it has to be. `Range` comes in version 1 on line 2 where
    /// there is no pair or the cut ends neither at the last column nor at the one before it; in version 2 on line 2
    /// where there are more blocks than columns, and on a block's line where there is no pair or a column isn't there
    /// or is replaced by a block before; and on a pair's line where the variable of a literal is neither 0, an input
    /// nor a gate of the graph or of a block before. In version 3 it comes on line 2 where there are more gates than
    /// `MOST_VARIABLES`, on a gate's line where a literal's variable is neither 0, an input nor a gate of the graph or
    /// of a line before, on the line with the number of outputs where there are more of them than columns, and on an
    /// output's line where the column isn't there or is replaced by a line before, or the literal's variable is none of
    /// those. `TooLong` comes where the line is too long or holds the first byte past the limit of the file.
    pub fn start<D: Desk>(
        alloc: Global,
        desk: &mut D,
        graph: &Graph,
        limits: &Limits,
    ) -> Result<(ClauseFile, Header), StartFail>
        requires { (D.seen desk.old).reads Clauses ≡ true }
        ensures header { IfOk result (λ r. IfSome ((D.seen desk.old).left Clauses)
            (λ bytes. HasClauseHeader graph.now r.0 bytes (left_of_file Clauses r.0 (D.seen desk.new)) r.1)) }
        ensures fits { IfOk result (λ r. IsHeaderOf graph.now r.1) }
        ensures refused { IfErr result (IsStartRefusal graph.now (lengths_of limits.now)
            ((D.seen desk.old).left Clauses) (D.seen desk.old).read_faults (D.seen desk.new).read_faults) }
        ensures file { IfOk result (λ r. IsStarted r.1.version (header_line_count r.1) limits.now r.0) }
        ensures reads { Reads Clauses (D.seen desk.old) (D.seen desk.new) result }
    {
        let one = b"joined 1".as_slice();
        let two = b"joined 2".as_slice();
        let three = b"joined 3".as_slice();
        match CertificateFile::start_any(alloc, desk, Slot::Clauses, one, two, three, limits) {
            Ok(mut file) => match any_header(alloc, &mut file, desk, graph) {
                Ok(header) => Ok((ClauseFile { alloc, file }, header)),
                Err(why) => Err(StartFail {
                    line: file.line_no(),
                    why,
                }),
            },
            Err(why) => Err(StartFail { line: 1, why }),
        }
    }

    /// Reads the first line of the certificate of two graphs.
    ///
    /// `Text` comes where another line stands there, or none with its line feed. `TooLong` comes where the line is
    /// too long or holds the first byte past the limit of the file.
    pub fn start_same<D: Desk>(
        alloc: Global,
        desk: &mut D,
        limits: &Limits,
    ) -> Result<ClauseFile, StartFail>
        requires { (D.seen desk.old).reads Clauses ≡ true }
        ensures header { IfOk result (λ file. IfSome ((D.seen desk.old).left Clauses)
            (λ bytes. HasFirstLine same_line file.lines bytes (left_of_file Clauses file (D.seen desk.new)))) }
        ensures refused { IfErr result (IsSameStartRefusal (lengths_of limits.now)
            ((D.seen desk.old).left Clauses) (D.seen desk.old).read_faults (D.seen desk.new).read_faults) }
        ensures file { IfOk result (IsStarted 1 1 limits.now) }
        ensures reads { Reads Clauses (D.seen desk.old) (D.seen desk.new) result }
    {
        let first = b"same 1".as_slice();
        match CertificateFile::start(alloc, desk, Slot::Clauses, 1, first, limits) {
            Ok(file) => Ok(ClauseFile { alloc, file }),
            Err(why) => Err(StartFail { line: 1, why }),
        }
    }

    /// The next line, or none at the end of the file. After the end or an error each later call gives the same answer.
    ///
    /// `Text` comes where no line stands there with its line feed, `Range` where one does, but with a variable above
    /// `max`, and `TooLong` where the line there is too long or holds the first byte past the limit of the file.
    pub fn next<D: Desk>(&mut self, desk: &mut D, max: u32) -> Result<Option<Line>, LineFail>
        requires open { (D.seen desk.old).reads Clauses ≡ true }
        requires small { max < 2 ^ 31 }
        ensures next { GoesOn self.old → ReadsLine IsClauseLine (IsClauseLineInRange max) (IsClauseTextOf max)
            Clauses self.old self.new (D.seen desk.old) (D.seen desk.new) result }
        ensures again { AnswersAgain (Ok None) self.old self.new result }
        ensures keeps { KeepsFile self.old self.new result }
        ensures reads { Reads Clauses (D.seen desk.old) (D.seen desk.new) result }
    {
        match self.file.next_line(self.alloc, desk, Slot::Clauses) {
            Ok(Some(line)) => match self.file.settle(read_line(self.alloc, &line, max)) {
                Ok(line) => Ok(Some(line)),
                Err(fail) => Err(fail),
            },
            Ok(None) => Ok(None),
            Err(fail) => Err(fail),
        }
    }

    /// How many lines were read, from the first one of the header on; after an error the number of its line.
    pub fn line_no(&self) -> u64
        ensures { result ≡ self.now.number }
    {
        self.file.line_no()
    }
}

// The lines of a header after the first one, by the version.
fn any_header<D: Desk>(
    alloc: Global,
    file: &mut CertificateFile,
    desk: &mut D,
    graph: &Graph,
) -> Result<Header, LineFail>
    requires open { (D.seen desk.old).reads Clauses ≡ true }
    requires version { (file.old.version ≡ 1) ⊎ (file.old.version ≡ 2) ⊎ (file.old.version ≡ 3) }
    requires goes_on { GoesOn file.old }
    requires first { file.old.number ≡ 1 }
    ensures header { ReadsHeaderPart (version_part graph.now file.old.version)
        file.old file.new (D.seen desk.old) (D.seen desk.new) result }
    ensures version { IfOk result (λ h. h.version ≡ file.old.version) }
    ensures fits { IfOk result (IsHeaderOf graph.now) }
    ensures keeps { KeepsFile file.old file.new result }
    ensures reads { Reads Clauses (D.seen desk.old) (D.seen desk.new) result }
{
    let version = file.version();
    if version == 3 {
        return match beside(alloc, file, desk, graph) {
            Ok(beside) => {
                let blocks = BlockList::from_vec(Vec::new(alloc));
                Ok(Header {
                    version,
                    blocks,
                    beside,
                })
            }
            Err(fail) => Err(fail),
        };
    }
    match any_blocks(alloc, file, desk, graph) {
        Ok(blocks) => {
            let blocks = BlockList::from_vec(blocks);
            let beside = Beside::nothing(alloc);
            Ok(Header {
                version,
                blocks,
                beside,
            })
        }
        Err(fail) => Err(fail),
    }
}

// The same of a version without what stands beside.
fn any_blocks<D: Desk>(
    alloc: Global,
    file: &mut CertificateFile,
    desk: &mut D,
    graph: &Graph,
) -> Result<Vec<Block>, LineFail>
    requires open { (D.seen desk.old).reads Clauses ≡ true }
    requires version { (file.old.version ≡ 1) ⊎ (file.old.version ≡ 2) }
    requires goes_on { GoesOn file.old }
    requires first { file.old.number ≡ 1 }
    ensures blocks { ReadsHeaderPart (blocks_version_part graph.now file.old.version)
        file.old file.new (D.seen desk.old) (D.seen desk.new) result }
    ensures fits { IfOk result (λ blocks. AreHeaderBlocks graph.now file.old.version blocks.items) }
    ensures keeps { KeepsFile file.old file.new result }
    ensures reads { Reads Clauses (D.seen desk.old) (D.seen desk.new) result }
{
    if file.version() == 2 {
        return listed_blocks(alloc, file, desk, graph);
    }
    match cut(alloc, file, desk, graph) {
        Ok(None) => Ok(Vec::new(alloc)),
        Ok(Some(cut)) => file.settle(one_block(alloc, graph, cut)),
        Err(fail) => Err(fail),
    }
}

// The block of a cut of version 1: the last carry is replaced too where it is that of the last column.
fn one_block(alloc: Global, graph: &Graph, cut: Cut) -> Result<Vec<Block>, LineFail>
    requires { IsCut graph.now cut }
    ensures ok { IfOk result (λ blocks. blocks.items ≡ block_of (length graph.now.outputs) cut ∷ []) }
    ensures err { IfErr result (λ fail. fail ≡ LineFail.Memory) }
{
    let end = cut.lo as usize + cut.pairs.as_slice().len();
    let carry = end + 1 == graph.output_literals().len();
    let mut blocks = Vec::new(alloc);
    match blocks.push(Block { cut, carry }) {
        Ok(()) => Ok(blocks),
        Err(_) => Err(LineFail::Memory),
    }
}

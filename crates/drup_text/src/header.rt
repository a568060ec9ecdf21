// The lines of a header, and those of a cut of version 1.
ghost use Rattle.std.specs.Prelude.{◌≡◌, ◌≢◌, ◌++◌, ◌∷◌, [], true, All, IfOk, IfErr, OnOk, length};
ghost use Rattle.std.specs.List.{AllByRecursion};
ghost use Rattle.graph_core.specs.Text.{newline};
ghost use Rattle.mv_desk.specs.Calls.{Reads};
ghost use Rattle.mv_desk.specs.declared.slot.Slot.TheVariants.{Clauses};
ghost use Rattle.mv_text.specs.CertificateFiles.{GoesOn, KeepsFile};
ghost use Rattle.mv_text.specs.LineReading.{FitsPiece};
ghost use Rattle.ripple_graft.specs.HeaderBlocks.{IsCutOf};
ghost use Rattle.drup_text.specs.ClauseTexts.{IsCutLine, IsNumberLine, IsPairLine};
ghost use Rattle.drup_text.specs.HeaderSteps.{ReadsHeaderPart, cut_part, line_part, pairs_part};
ghost use Rattle.drup_text.specs.LineTexts.{IsCountInRange, IsPairOf, IsSizeInRange};

use crate::header_reading::{read_number, read_pair, read_size};
use graph_core::{Graph, Lit};
use mv_desk::{Desk, Slot};
use mv_text::{CertificateFile, LineFail};
use ripple_graft::{Cut, Extended, Pairs};
use std::alloc::Global;

// The lines after the first one in version 1: the cut's, and one for each pair.
pub(crate) fn cut<D: Desk>(
    alloc: Global,
    file: &mut CertificateFile,
    desk: &mut D,
    graph: &Graph,
) -> Result<Option<Cut>, LineFail>
    requires open { (D.seen desk.old).reads Clauses ≡ true }
    requires goes_on { GoesOn file.old }
    requires first { file.old.number ≡ 1 }
    ensures cut { ReadsHeaderPart (cut_part graph.now) file.old file.new (D.seen desk.old) (D.seen desk.new) result }
    ensures fits { IfOk result (IsCutOf graph.now) }
    ensures keeps { KeepsFile file.old file.new result }
    ensures reads { Reads Clauses (D.seen desk.old) (D.seen desk.new) result }
{
    match next_size(alloc, file, desk, graph) {
        Ok(None) => Ok(None),
        Ok(Some((lo, count))) => {
            match pairs(alloc, file, desk, &Extended::without_cut(graph), count) {
                Ok(pairs) => {
                    let pairs = Pairs::from_vec(pairs);
                    Ok(Some(Cut { lo, pairs }))
                }
                Err(fail) => Err(fail),
            }
        }
        Err(fail) => Err(fail),
    }
}

// The line of a cut.
fn next_size<D: Desk>(
    alloc: Global,
    file: &mut CertificateFile,
    desk: &mut D,
    graph: &Graph,
) -> Result<Option<(u32, u32)>, LineFail>
    requires open { (D.seen desk.old).reads Clauses ≡ true }
    requires goes_on { GoesOn file.old }
    ensures size { ReadsHeaderPart (line_part IsCutLine (IsSizeInRange (length graph.now.outputs)))
        file.old file.new (D.seen desk.old) (D.seen desk.new) result }
    ensures in_range { IfOk result (IsSizeInRange (length graph.now.outputs)) }
    ensures keeps { KeepsFile file.old file.new result }
    ensures reads { Reads Clauses (D.seen desk.old) (D.seen desk.new) result }
{
    match file.needed_line(alloc, desk, Slot::Clauses) {
        Ok(line) => file.settle(read_size(&line, graph.outputs())),
        Err(fail) => Err(fail),
    }
}

// A line with a number after a word.
pub(crate) fn next_number<D: Desk>(
    alloc: Global,
    file: &mut CertificateFile,
    desk: &mut D,
    word: &[u8],
    most: u32,
) -> Result<u32, LineFail>
    requires open { (D.seen desk.old).reads Clauses ≡ true }
    requires goes_on { GoesOn file.old }
    requires plain { AllByRecursion (λ b. b ≢ newline) word.now }
    ensures number { ReadsHeaderPart (line_part (IsNumberLine word.now) (IsCountInRange most))
        file.old file.new (D.seen desk.old) (D.seen desk.new) result }
    ensures in_range { IfOk result (IsCountInRange most) }
    ensures keeps { KeepsFile file.old file.new result }
    ensures reads { Reads Clauses (D.seen desk.old) (D.seen desk.new) result }
{
    match file.needed_line(alloc, desk, Slot::Clauses) {
        Ok(line) => file.settle(read_number(&line, word, most)),
        Err(fail) => Err(fail),
    }
}

// So many pairs.
pub(crate) fn pairs<D: Desk>(
    alloc: Global,
    file: &mut CertificateFile,
    desk: &mut D,
    extended: &Extended<'_>,
    count: u32,
) -> Result<Vec<(Lit, Lit)>, LineFail>
    requires open { (D.seen desk.old).reads Clauses ≡ true }
    requires goes_on { GoesOn file.old }
    requires piece { FitsPiece file.old.lines }
    ensures pairs { ReadsHeaderPart (pairs_part extended.now count)
        file.old file.new (D.seen desk.old) (D.seen desk.new) result }
    ensures known { IfOk result (λ pairs. All (IsPairOf extended.now) pairs.items) }
    ensures count { IfOk result (λ pairs. length pairs.items ≡ count) }
    ensures keeps { KeepsFile file.old file.new result }
    ensures reads { Reads Clauses (D.seen desk.old) (D.seen desk.new) result }
{
    let mut pairs = Vec::new(alloc);
    for _ in 0..count {
        let pair = match next_pair(alloc, file, desk, extended) {
            Ok(pair) => pair,
            Err(fail) => return Err(fail),
        };
        match file.settle(append(&mut pairs, pair)) {
            Ok(()) => {}
            Err(fail) => return Err(fail),
        }
    }
    Ok(pairs)
}

// The line of a pair, or of a gate.
pub(crate) fn next_pair<D: Desk>(
    alloc: Global,
    file: &mut CertificateFile,
    desk: &mut D,
    extended: &Extended<'_>,
) -> Result<(Lit, Lit), LineFail>
    requires open { (D.seen desk.old).reads Clauses ≡ true }
    requires goes_on { GoesOn file.old }
    ensures pair { ReadsHeaderPart (line_part IsPairLine (IsPairOf extended.now))
        file.old file.new (D.seen desk.old) (D.seen desk.new) result }
    ensures known { IfOk result (IsPairOf extended.now) }
    ensures keeps { KeepsFile file.old file.new result }
    ensures reads { Reads Clauses (D.seen desk.old) (D.seen desk.new) result }
{
    match file.needed_line(alloc, desk, Slot::Clauses) {
        Ok(line) => file.settle(read_pair(&line, extended)),
        Err(fail) => Err(fail),
    }
}

// One pair more at the end.
fn append(pairs: &mut Vec<(Lit, Lit)>, pair: (Lit, Lit)) -> Result<(), LineFail>
    ensures ok { OnOk result (pairs.new.items ≡ pairs.old.items ++ pair ∷ []) }
    ensures err { IfErr result (λ fail. fail ≡ LineFail.Memory) }
{
    match pairs.push(pair) {
        Ok(()) => Ok(()),
        Err(_) => Err(LineFail::Memory),
    }
}

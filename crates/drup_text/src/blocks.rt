// The header of a certificate of version 2, line by line.
ghost use Rattle.std.specs.Prelude.{◌≡◌, ◌≤◌, ◌++◌, ◌∷◌, [], true, IfOk, IfErr, OnOk, length};
ghost use Rattle.graph_core.specs.Graph.Extended.{without_cut};
ghost use Rattle.mv_desk.specs.Calls.{Reads};
ghost use Rattle.mv_desk.specs.declared.slot.Slot.TheVariants.{Clauses};
ghost use Rattle.mv_text.specs.CertificateFiles.{GoesOn, KeepsFile};
ghost use Rattle.mv_text.specs.LineReading.{FitsPiece};
ghost use Rattle.ripple_graft.specs.Blocks.{AreBlocks, IsBlock, graft_block};
ghost use Rattle.drup_text.specs.ClauseTexts.{IsBlockLine};
ghost use Rattle.drup_text.specs.HeaderSteps.{ReadsHeaderPart, block_part, blocks_part, count_part, line_part};
ghost use Rattle.drup_text.specs.LineTexts.{IsHeadOf};

use crate::header::{next_number, pairs};
use crate::header_reading::read_head;
use graph_core::Graph;
use mv_desk::{Desk, Slot};
use mv_text::{CertificateFile, LineFail};
use ripple_graft::{Block, Cut, Extended, Pairs};
use std::alloc::Global;

// The lines after the first one: the number of blocks, and the lines of each.
pub(crate) fn listed_blocks<D: Desk>(
    alloc: Global,
    file: &mut CertificateFile,
    desk: &mut D,
    graph: &Graph,
) -> Result<Vec<Block>, LineFail>
    requires open { (D.seen desk.old).reads Clauses ≡ true }
    requires goes_on { GoesOn file.old }
    requires first { file.old.number ≡ 1 }
    ensures blocks { ReadsHeaderPart (count_part graph.now)
        file.old file.new (D.seen desk.old) (D.seen desk.new) result }
    ensures fits { IfOk result (λ blocks. (length blocks.items ≤ length graph.now.outputs) ×
        AreBlocks (without_cut graph.now) blocks.items) }
    ensures keeps { KeepsFile file.old file.new result }
    ensures reads { Reads Clauses (D.seen desk.old) (D.seen desk.new) result }
{
    match next_number(alloc, file, desk, b"cuts ", graph.outputs()) {
        Ok(count) => counted_blocks(alloc, file, desk, graph, count),
        Err(fail) => Err(fail),
    }
}

// So many blocks.
fn counted_blocks<D: Desk>(
    alloc: Global,
    file: &mut CertificateFile,
    desk: &mut D,
    graph: &Graph,
    count: u32,
) -> Result<Vec<Block>, LineFail>
    requires open { (D.seen desk.old).reads Clauses ≡ true }
    requires goes_on { GoesOn file.old }
    requires piece { FitsPiece file.old.lines }
    ensures blocks { ReadsHeaderPart (blocks_part (without_cut graph.now) count)
        file.old file.new (D.seen desk.old) (D.seen desk.new) result }
    ensures count { IfOk result (λ blocks. length blocks.items ≡ count) }
    ensures fits { IfOk result (λ blocks. AreBlocks (without_cut graph.now) blocks.items) }
    ensures keeps { KeepsFile file.old file.new result }
    ensures reads { Reads Clauses (D.seen desk.old) (D.seen desk.new) result }
{
    let mut extended = Extended::without_cut(graph);
    let mut blocks = Vec::new(alloc);
    for _ in 0..count {
        let block = match next_block(alloc, file, desk, &extended) {
            Ok(block) => block,
            Err(fail) => return Err(fail),
        };
        extended = match file.settle(append(alloc, extended, &mut blocks, block)) {
            Ok(longer) => longer,
            Err(fail) => return Err(fail),
        };
    }
    Ok(blocks)
}

// The lines of a block: its own, and one for each pair.
fn next_block<D: Desk>(
    alloc: Global,
    file: &mut CertificateFile,
    desk: &mut D,
    extended: &Extended<'_>,
) -> Result<Block, LineFail>
    requires open { (D.seen desk.old).reads Clauses ≡ true }
    requires goes_on { GoesOn file.old }
    ensures block { ReadsHeaderPart (block_part extended.now)
        file.old file.new (D.seen desk.old) (D.seen desk.new) result }
    ensures fits { IfOk result (IsBlock extended.now) }
    ensures keeps { KeepsFile file.old file.new result }
    ensures reads { Reads Clauses (D.seen desk.old) (D.seen desk.new) result }
{
    match next_head(alloc, file, desk, extended) {
        Ok((lo, count, carry)) => match pairs(alloc, file, desk, extended, count) {
            Ok(pairs) => {
                let pairs = Pairs::from_vec(pairs);
                Ok(Block {
                    cut: Cut { lo, pairs },
                    carry,
                })
            }
            Err(fail) => Err(fail),
        },
        Err(fail) => Err(fail),
    }
}

// The line of a block.
fn next_head<D: Desk>(
    alloc: Global,
    file: &mut CertificateFile,
    desk: &mut D,
    extended: &Extended<'_>,
) -> Result<(u32, u32, bool), LineFail>
    requires open { (D.seen desk.old).reads Clauses ≡ true }
    requires goes_on { GoesOn file.old }
    ensures head { ReadsHeaderPart (line_part IsBlockLine (IsHeadOf extended.now))
        file.old file.new (D.seen desk.old) (D.seen desk.new) result }
    ensures in_range { IfOk result (IsHeadOf extended.now) }
    ensures keeps { KeepsFile file.old file.new result }
    ensures reads { Reads Clauses (D.seen desk.old) (D.seen desk.new) result }
{
    match file.needed_line(alloc, desk, Slot::Clauses) {
        Ok(line) => file.settle(read_head(&line, extended)),
        Err(fail) => Err(fail),
    }
}

// One block more at the end, and the graph with it.
fn append<'a>(
    alloc: Global,
    extended: Extended<'a>,
    blocks: &mut Vec<Block>,
    block: Block,
) -> Result<Extended<'a>, LineFail>
    requires { IsBlock extended block }
    ensures ok { IfOk result (λ e. e ≡ graft_block extended.entry block) }
    ensures more { OnOk result (blocks.new.items ≡ blocks.old.items ++ block ∷ []) }
    ensures err { IfErr result (λ fail. fail ≡ LineFail.Memory) }
{
    let next = match extended.with_block(alloc, &block.cut, block.carry) {
        Ok(next) => next,
        Err(_) => return Err(LineFail::Memory),
    };
    match blocks.push(block) {
        Ok(()) => Ok(next),
        Err(_) => Err(LineFail::Memory),
    }
}

// Grafting ripple-carry adders onto a graph.
ghost use Rattle.std.specs.Prelude.{◌≡◌, ◌↔◌, ℕ, ◌+◌, ◌<◌, ◌^◌, ◌≤◌, ◌==◌, Err, IfErr, IfOk, IsTrue, MatchOption, length};
ghost use Rattle.std.specs.List.{All};
ghost use Rattle.graph_core.specs.declared.bounds.TheConstants.{MOST_OUTPUTS};
ghost use Rattle.graph_core.specs.Graph.{IsBuilt};
ghost use Rattle.graph_core.specs.Graph.Extended.{without_cut};
ghost use Rattle.ripple_graft.specs.Blocks.{AreBlocks, IsBlock, IsCut, graft_block, with_blocks, with_cut};
ghost use Rattle.ripple_graft.specs.Extension.{IsKnown};
ghost use Rattle.ripple_graft.specs.Grafts.{HasColumns, IsBlockFault, IsBlocksFault, IsFirstUnknown, IsKnownPair};

use crate::Extended;
use crate::block::Block;
use crate::cut::Cut;
use crate::fault::{BlocksFail, GraftFail};
use graph_core::{Graph, Lit};
use std::alloc::Global;

/// The graph with a ripple-carry adder in place of its outputs from the cut's first column on.
///
/// The sums replace as many columns as there are pairs, and the last carry the column after them, if there is one.
pub fn graft<'a>(alloc: Global, graph: &'a Graph, cut: &Cut) -> Result<Extended<'a>, GraftFail>
    ensures ok { IfOk result (λ e. IsCut graph.now cut.now × (e ≡ with_cut graph.now cut.now)) }
    ensures columns { result ≡ Err GraftFail.Columns → ¬ (HasColumns graph.now cut.now) }
    ensures literal { (i : ℕ) → result ≡ Err (GraftFail.Literal i) →
        HasColumns graph.now cut.now × IsFirstUnknown (without_cut graph.now) cut.now.pairs i }
{
    if !has_columns(graph, cut) {
        return Err(GraftFail::Columns);
    }
    let alone = Extended::without_cut(graph);
    if let Some(i) = first_unknown(&alone, cut.pairs.as_slice()) {
        return Err(GraftFail::Literal(i));
    }
    match alone.with_block(alloc, cut, has_carry(graph, cut)) {
        Ok(extended) => Ok(extended),
        Err(_) => Err(GraftFail::Memory),
    }
}

/// The graph with blocks, one after the other. The sums of each replace as many columns as it has pairs, and where it
/// says so its last carry the column after them.
pub fn graft_blocks<'a>(
    alloc: Global,
    graph: &'a Graph,
    blocks: &[Block],
) -> Result<Extended<'a>, BlocksFail>
    ensures ok { IfOk result (λ e. AreBlocks (without_cut graph.now) blocks.now ×
        (e ≡ with_blocks graph.now blocks.now)) }
    ensures fault { IfErr result (IsBlocksFault graph.now blocks.now) }
{
    let mut extended = Extended::without_cut(graph);
    for (i, block) in blocks.iter().enumerate() {
        extended = match graft_next(alloc, extended, block) {
            Ok(next) => next,
            Err(GraftFail::Columns) => return Err(BlocksFail::Columns(i as u32)),
            Err(GraftFail::Literal(p)) => return Err(BlocksFail::Literal(i as u32, p)),
            Err(GraftFail::Memory) => return Err(BlocksFail::Memory),
        };
    }
    Ok(extended)
}

/// Whether a literal is a constant, or one of an input or a gate.
pub fn is_known(graph: &Graph, lit: Lit) -> bool
    ensures { IsTrue result ↔ IsKnown (without_cut graph.now) lit }
{
    Extended::without_cut(graph).is_known(lit)
}

// One block more, or the first fault of the block.
fn graft_next<'a>(
    alloc: Global,
    extended: Extended<'a>,
    block: &Block,
) -> Result<Extended<'a>, GraftFail>
    ensures ok { IfOk result (λ e. IsBlock extended.entry block.now × (e ≡ graft_block extended.entry block.now)) }
    ensures fault { IfErr result (IsBlockFault extended.entry block.now) }
    ensures built { IsBuilt extended.entry.graph }
{
    let pairs = block.cut.pairs.as_slice();
    if !extended.has_room(block.cut.lo, pairs.len(), block.carry) {
        return Err(GraftFail::Columns);
    }
    if let Some(p) = first_unknown(&extended, pairs) {
        return Err(GraftFail::Literal(p));
    }
    match extended.with_block(alloc, &block.cut, block.carry) {
        Ok(next) => Ok(next),
        Err(_) => Err(GraftFail::Memory),
    }
}

fn has_columns(graph: &Graph, cut: &Cut) -> bool
    ensures value { IsTrue result ↔ HasColumns graph.now cut.now }
    ensures few { HasColumns graph.now cut.now → length cut.now.pairs ≤ MOST_OUTPUTS }
{
    let outputs = graph.output_literals().len();
    let pairs = cut.pairs.as_slice().len();
    if pairs == 0 || outputs < pairs {
        return false;
    }
    let end = cut.lo as usize + pairs;
    end == outputs || end + 1 == outputs
}

// Whether there is a column for the last carry.
fn has_carry(graph: &Graph, cut: &Cut) -> bool
    requires { length cut.now.pairs ≤ MOST_OUTPUTS }
    ensures { result ≡ (cut.now.lo + length cut.now.pairs + 1 == length graph.now.outputs) }
{
    let outputs = graph.output_literals().len();
    let pairs = cut.pairs.as_slice().len();
    cut.lo as usize + pairs + 1 == outputs
}

fn first_unknown(extended: &Extended<'_>, pairs: &[(Lit, Lit)]) -> Option<u32>
    requires { length pairs.now ≤ MOST_OUTPUTS }
    ensures { MatchOption result (All (IsKnownPair extended.now) pairs.now)
        (IsFirstUnknown extended.now pairs.now) }
{
    for (i, (x, y)) in pairs.iter().enumerate() {
        if !extended.is_known(*x) || !extended.is_known(*y) {
            return Some(i as u32);
        }
    }
    None
}

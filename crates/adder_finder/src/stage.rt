// The final stage of a multiplier that ends with an adder.
ghost use Rattle.std.specs.Prelude.{◌≡◌, ◌↔◌, ◌+◌, ◌<◌, ◌≤◌, ◌∷◌, ◌⊎◌, IfOk, IfSome, IsNone, IsTrue, MatchOption};
ghost use Rattle.std.specs.Prelude.{drop, length, map, slice_index, slice_index_or};
ghost use Rattle.std.specs.List.{All};
ghost use Rattle.graph_core.specs.declared.bounds.TheConstants.{MOST_OUTPUTS};
ghost use Rattle.graph_core.specs.declared.literal.Lit.{Lit as Literal};
ghost use Rattle.graph_core.specs.Graph.{IsBuilt};
ghost use Rattle.graph_core.specs.Graph.Literals.{variable_of};
ghost use Rattle.ripple_graft.specs.declared.cut.Cut.{Cut as CutOf};
ghost use Rattle.adder_finder.specs.FinalStage.{IsFinalStage, IsFit};
ghost use Rattle.adder_finder.specs.XorShape.{IsXorOfPair};
ghost use Rattle.adder_finder.specs.Cover.{AreKeys};
ghost use Rattle.adder_finder.specs.StageSearch.{AreNextShapes, AreSidesIn, IsCount, IsLongestAt};
ghost use Rattle.adder_finder.specs.StageSearch.{IsNextShape, IsWholeStage, NoneFitsAt};
ghost use Rattle.adder_finder.specs.declared.stage.Next.{Next as NextOf};

use crate::cover::{keys_by_level, needs_of};
use crate::walk::misses;
use crate::xor::xor_of;
use graph_core::{Graph, Lit, Memory};
use ripple_graft::{Cut, Pairs};
use std::alloc::Global;

// What an output of XOR shape says of its column.
#[derive(Clone, Copy, Debug)]
pub(crate) struct Next {
    /// the pair of the side that has XOR shape itself
    pub(crate) pair: (Lit, Lit),
    /// the variable of the other side
    pub(crate) side: u32,
}

/// The fit cut with the least low column, of two at that column the longer one; None where no cut is fit.
pub fn final_stage(alloc: Global, graph: &Graph) -> Result<Option<Cut>, Memory>
    ensures some { IfOk result (λ stage. IfSome stage (IsFinalStage graph.now)) }
    ensures none { IfOk result (λ stage. IsNone stage ↔ ((cut : CutOf) → ¬ (IsFit graph.now cut))) }
{
    let keys = keys_by_level(alloc, graph)?;
    for lo in 0..graph.outputs() {
        if let Some(cut) = cut_at(alloc, graph, &keys, lo)? {
            return Ok(Some(cut));
        }
    }
    Ok(None)
}

// The longest fit cut at a low column.
fn cut_at(alloc: Global, graph: &Graph, keys: &[(u32, u32)], lo: u32) -> Result<Option<Cut>, Memory>
    requires keys { AreKeys graph.now keys.now }
    requires in_range { lo < length graph.now.outputs }
    ensures { IfOk result (λ cut. MatchOption cut (NoneFitsAt graph.now lo) (IsLongestAt graph.now lo)) }
{
    let outputs = graph.output_literals();
    match xor_of(graph, outputs[lo as usize].var()) {
        Some(xor) => cut_from(alloc, graph, keys, lo, xor.pair),
        None => Ok(None),
    }
}

// The longest fit cut at a low column whose output's gate has a pair.
fn cut_from(
    alloc: Global,
    graph: &Graph,
    keys: &[(u32, u32)],
    lo: u32,
    first: (Lit, Lit),
) -> Result<Option<Cut>, Memory>
    requires keys { AreKeys graph.now keys.now }
    requires in_range { lo < length graph.now.outputs }
    requires first { (o : Literal) → IsXorOfPair graph.now (variable_of (slice_index_or graph.now.outputs lo o)) first }
    ensures { IfOk result (λ cut. MatchOption cut (NoneFitsAt graph.now lo) (IsLongestAt graph.now lo)) }
{
    let rest = outputs_behind(graph, lo);
    let nexts = next_shapes(alloc, graph, rest)?;
    // but for the last one each column has a shape
    if nexts.len() + 1 < rest.len() {
        return Ok(None);
    }
    // most pairs don't cover the next column
    if rest.len() > 1 && misses(graph, first, nexts[0].side) {
        return Ok(None);
    }
    let mut pairs = pairs_of(alloc, first, &nexts)?;
    let needs = needs_of(alloc, graph, keys, &pairs)?;
    let count = covered_columns(&needs, &nexts);
    if !are_all(&needs, rest, count) {
        return Ok(None);
    }
    pairs.truncate(count + 1);
    Ok(Some(Cut {
        lo,
        pairs: Pairs::from_vec(pairs),
    }))
}

// The outputs of the columns above one.
fn outputs_behind(graph: &Graph, lo: u32) -> &[Lit]
    requires { lo < length graph.now.outputs }
    ensures value { result.now ≡ drop (lo + 1) graph.now.outputs }
    ensures built { IsBuilt graph.now }
{
    let outputs = graph.output_literals();
    &outputs[lo as usize + 1..]
}

// What the outputs say of their columns, up to the first one that says nothing.
fn next_shapes(alloc: Global, graph: &Graph, outputs: &[Lit]) -> Result<Vec<Next>, Memory>
    requires in_range { All (λ l. variable_of l ≤ graph.now.max) outputs.now }
    ensures { IfOk result (λ nexts. AreNextShapes graph.now outputs.now nexts.items) }
{
    let mut nexts = Vec::new(alloc);
    for output in outputs {
        match next_of(graph, *output) {
            Some(next) => nexts.push(next)?,
            None => return Ok(nexts),
        }
    }
    Ok(nexts)
}

// What an output says of its column, if its gate and just one of that gate's sides have XOR shape.
fn next_of(graph: &Graph, output: Lit) -> Option<Next>
    requires in_range { variable_of output ≤ graph.now.max }
    ensures some { IfSome result (IsNextShape graph.now output) }
    ensures none { IsNone result → (next : NextOf) → ¬ (IsNextShape graph.now output next) }
{
    let _max = graph.max();
    let top = xor_of(graph, output.var())?;
    let (x, y) = (top.pair.0.var(), top.pair.1.var());
    match (xor_of(graph, x), xor_of(graph, y)) {
        (Some(xor), None) => Some(Next {
            pair: xor.pair,
            side: y,
        }),
        (None, Some(xor)) => Some(Next {
            pair: xor.pair,
            side: x,
        }),
        _ => None,
    }
}

// The first pair and those of the columns after it.
fn pairs_of(alloc: Global, first: (Lit, Lit), nexts: &[Next]) -> Result<Vec<(Lit, Lit)>, Memory>
    ensures { IfOk result (λ pairs. pairs.items ≡ first ∷ map (λ next. next.pair) nexts.now) }
{
    let mut pairs = vec![in alloc; first; 1]?;
    for next in nexts {
        pairs.push(next.pair)?;
    }
    Ok(pairs)
}

// How many columns, from the first on, have their other side covered by the pairs before them.
fn covered_columns(needs: &[u32], nexts: &[Next]) -> usize
    requires in_range { AreSidesIn (length needs.now) nexts.now }
    requires few { length nexts.now ≤ MOST_OUTPUTS }
    ensures { IsCount needs.now nexts.now result }
{
    for (i, next) in nexts.iter().enumerate() {
        if needs[next.side as usize] as usize > i + 1 {
            return i;
        }
    }
    nexts.len()
}

// Whether the columns are all, or all but the last one, which the pairs cover.
fn are_all(needs: &[u32], outputs: &[Lit], count: usize) -> bool
    requires in_range { All (λ l. variable_of l < length needs.now) outputs.now }
    requires few { count ≤ length outputs.now }
    ensures { IsTrue result ↔ IsWholeStage needs.now outputs.now count }
{
    count == outputs.len()
        || (count + 1 == outputs.len()
            && needs[outputs[count].var() as usize] as usize <= count + 1)
}

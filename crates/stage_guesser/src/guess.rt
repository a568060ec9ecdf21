// A final stage by its values on some operands.
ghost use Rattle.std.specs.Prelude.{IfOk, IfSome, IsTrue};
ghost use Rattle.ripple_graft.specs.Blocks.{IsCut};

use crate::chain::Search;
use crate::raised::{Raised, raise};
use crate::table::Table;
use graph_core::{Graph, Memory, Numbers, Operands};
use ripple_graft::{Cut, GraftFail, Pairs, graft};
use std::alloc::Global;

// No table is made of more variables, and no cut looked for.
const MOST_TABLE_VARIABLES: u32 = 65536;

// So many variables for each pair are few.
const NARROW: usize = 64;

/// A cut with the least low column that was found: on some operands, the given ones among them, the outputs
/// from there on are those of a ripple-carry adder over its pairs.
pub fn candidate(
    alloc: Global,
    graph: &Graph,
    operands: &Operands,
    given: &[Numbers],
) -> Result<Option<Cut>, Memory>
    ensures { IfOk result (λ cut. IfSome cut (IsCut graph.now)) }
{
    if graph.max() > MOST_TABLE_VARIABLES {
        return Ok(None);
    }
    match guess(alloc, graph, operands, given)? {
        None => Ok(None),
        Some(cut) => if_fitting(alloc, graph, cut),
    }
}

// The first adder that the search comes to, or where there is much above its pairs, and less above those of the first
// one in the other order, that one.
fn guess(
    alloc: Global,
    graph: &Graph,
    operands: &Operands,
    given: &[Numbers],
) -> Result<Option<Cut>, Memory> {
    let table = Table::new(alloc, graph, operands, given)?;
    best(alloc, graph, &table)
}

// The cut of the best adder by the values of a table.
fn best(alloc: Global, graph: &Graph, table: &Table) -> Result<Option<Cut>, Memory> {
    let mut search = Search::new(alloc, graph, table)?;
    match first_adder(alloc, graph, table, &mut search)? {
        None => Ok(None),
        Some(first) => best_with(alloc, graph, table, &mut search, first),
    }
}

// This adder, or the first one in the other order if that is narrower.
fn best_with(
    alloc: Global,
    graph: &Graph,
    table: &Table,
    search: &mut Search<'_>,
    first: Adder,
) -> Result<Option<Cut>, Memory> {
    if first.is_narrow() {
        return Ok(Some(first.into_cut()));
    }
    search.turn();
    let other = first_adder(alloc, graph, table, search)?;
    Ok(Some(first.or_better(other).into_cut()))
}

// The adder with the least low column.
fn first_adder(
    alloc: Global,
    graph: &Graph,
    table: &Table,
    search: &mut Search<'_>,
) -> Result<Option<Adder>, Memory> {
    for lo in 0..graph.outputs() {
        if let Some(pairs) = search.pairs_from(lo as usize)? {
            let raised = raise(alloc, graph, table, lo, &pairs)?;
            return Ok(Some(Adder { lo, raised }));
        }
    }
    Ok(None)
}

// An adder from a column on.
#[derive(Debug, Drop)]
struct Adder {
    lo: u32,
    raised: Raised,
}

impl Adder {
    // Whether few variables lie above the pairs.
    fn is_narrow(&self) -> bool {
        self.raised.width <= self.raised.pairs.len().saturating_mul(NARROW)
    }

    // Whether it begins no higher and fewer variables lie above its pairs.
    fn is_better(&self, other: &Adder) -> bool {
        self.lo <= other.lo && self.raised.width < other.raised.width
    }

    // The other one, if there is one and it is better.
    fn or_better(self, other: Option<Adder>) -> Adder {
        match other {
            Some(other) if other.is_better(&self) => other,
            _ => self,
        }
    }

    fn into_cut(self) -> Cut {
        Cut {
            lo: self.lo,
            pairs: Pairs::from_vec(self.raised.pairs),
        }
    }
}

// A cut, where it is one of the graph.
fn if_fitting(alloc: Global, graph: &Graph, cut: Cut) -> Result<Option<Cut>, Memory>
    ensures { IfOk result (λ found. IfSome found (IsCut graph.now)) }
{
    if fits(alloc, graph, &cut)? {
        Ok(Some(cut))
    } else {
        Ok(None)
    }
}

// Whether an adder can be put there.
fn fits(alloc: Global, graph: &Graph, cut: &Cut) -> Result<bool, Memory>
    ensures { IfOk result (λ fits. IsTrue fits → IsCut graph.now cut.now) }
{
    match graft(alloc, graph, cut) {
        Ok(_) => Ok(true),
        Err(GraftFail::Memory) => Err(Memory),
        Err(_) => Ok(false),
    }
}

// How many pairs, from the first on, cover each variable.
ghost use Rattle.std.specs.Prelude.{◌≡◌, ◌+◌, ◌<◌, ◌≤◌, IfOk, length};
ghost use Rattle.graph_core.specs.Graph.Literals.{variable_of};
ghost use Rattle.adder_finder.specs.Cover.{AreFirstNeeds, AreKeys, AreNeeds, ArePairsIn, IsCover, Lowers};

use graph_core::{Graph, Lit, Memory};
use std::alloc::Global;

/// The level and the variable of each gate, rising: so each gate comes after those that it reads.
pub(crate) fn keys_by_level(alloc: Global, graph: &Graph) -> Result<Vec<(u32, u32)>, Memory>
    ensures { IfOk result (λ keys. AreKeys graph.now keys.items) }
{
    let mut keys = Vec::new(alloc);
    for gate in graph.gates() {
        keys.push((graph.level(gate.v), gate.v))?;
    }
    keys.sort_unstable();
    Ok(keys)
}

/// By variable: the least number of pairs, from the first on, that cover it; more than there are where all don't.
pub(crate) fn needs_of(
    alloc: Global,
    graph: &Graph,
    keys: &[(u32, u32)],
    pairs: &[(Lit, Lit)],
) -> Result<Vec<u32>, Memory>
    requires keys { AreKeys graph.now keys.now }
    requires pairs { ArePairsIn graph.now pairs.now }
    ensures { IfOk result (λ needs. AreNeeds graph.now pairs.now needs.items) }
{
    let _max = graph.max();
    let mut needs = first_needs(alloc, graph, pairs)?;
    for (_level, v) in keys {
        cover(&mut needs, graph, *v);
    }
    Ok(needs)
}

// A gate needs no more pairs than both its operands do.
fn cover(needs: &mut Vec<u32>, graph: &Graph, v: u32)
    requires room { length needs.old.items ≡ graph.now.max + 1 }
    requires in_range { v ≤ graph.now.max }
    ensures { IsCover graph.now v needs.old.items needs.new.items }
{
    let _max = graph.max();
    if let Some(gate) = graph.gate(v) {
        let left = needs[gate.left.var() as usize];
        let right = needs[gate.right.var() as usize];
        lower(needs, v, left.max(right));
    }
}

// The constant needs no pair, and a variable of a pair those up to it.
fn first_needs(alloc: Global, graph: &Graph, pairs: &[(Lit, Lit)]) -> Result<Vec<u32>, Memory>
    requires pairs { ArePairsIn graph.now pairs.now }
    ensures { IfOk result (λ needs. AreFirstNeeds graph.now.max pairs.now (length pairs.now) needs.items) }
{
    let mut needs = vec![in alloc; u32::MAX; graph.max() as usize + 1]?;
    needs[0] = 0;
    for (i, (x, y)) in pairs.iter().enumerate() {
        lower(&mut needs, x.var(), i as u32 + 1);
        lower(&mut needs, y.var(), i as u32 + 1);
    }
    Ok(needs)
}

// At most so many at a variable.
fn lower(needs: &mut Vec<u32>, v: u32, n: u32)
    requires in_range { v < length needs.old.items }
    ensures { Lowers v n needs.old.items needs.new.items }
{
    if n < needs[v as usize] {
        needs[v as usize] = n;
    }
}

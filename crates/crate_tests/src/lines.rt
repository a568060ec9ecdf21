// pac_writer: a deletion, which no command writes.
ghost use Rattle.std.specs.Prelude.{◌≡◌, IfOk};
ghost use Rattle.graph_core.specs.Graph.Operands.{HasMultiplierShape, width};
ghost use Rattle.crate_tests.specs.OneBit.{IsOneBit, one_bit};

use graph_core::{Graph, Lit, Memory, Operands, Order};
use pac_writer::Lines;
use ripple_graft::Extended;
use std::alloc::Global;
use std::test::Fail;

// x3 = x2 * x1, whose outputs are x3 and 0
fn one_bit_graph(alloc: Global) -> Result<Graph, Fail>
    ensures graph { IfOk result (λ g. g ≡ one_bit) }
    ensures shape { IfOk result HasMultiplierShape }
    ensures width { IfOk result (λ g. width g ≡ 1) }
{
    let inputs = vec![in alloc; Lit(2), Lit(4)]?;
    let outputs = vec![in alloc; Lit(6), Lit(0)]?;
    let gates = vec![in alloc; (Lit(6), Lit(4), Lit(2))]?;
    let graph = Graph::build(alloc, 3, inputs, outputs, gates)?;
    Ok(graph)
}

// Deletes the axiom of its gate.
fn delete_axiom(lines: &mut Lines<'_>) -> Result<(), Memory>
    requires { IsOneBit lines.old }
{
    lines.drop_line(3)
}

#[test]
fn an_axiom_is_deleted(rt: HostRuntime) -> Result<(), Fail> {
    let graph = one_bit_graph(rt.alloc())?;
    let operands = Operands::of(rt.alloc(), &graph, Order::Separate)?;
    let extended = Extended::without_cut(&graph);
    let mut lines = Lines::new(rt.alloc(), &extended, &operands)?;
    delete_axiom(&mut lines)?;
    Ok(())
}

// Gates of XOR shape.
ghost use Rattle.std.specs.Prelude.{◌≡◌, ◌↔◌, ◌<◌, ◌≤◌, ◌⊎◌, true, false, IsTrue, IsNone, IfSome};
ghost use Rattle.graph_core.specs.declared.gate.Gate.{Gate as AndGate};
ghost use Rattle.graph_core.specs.Graph.{reader_count};
ghost use Rattle.graph_core.specs.Graph.Literals.{IsNegated, variable_of};
ghost use Rattle.adder_finder.specs.XorShape.{IsXorGate, IsXorOf};
ghost use Rattle.adder_finder.specs.XorFound.{AreTwo, HasOperands, IsBelow, IsMoreRead, IsShapeOver, shape_of};

use graph_core::{Gate, Graph, Lit};

/// The two gates below a gate of XOR shape, and what they are over.
///
/// The gate is the exclusive or of the variables of its pair, which are its sides.
#[derive(Clone, Copy, Debug, PartialEq, Eq)]
pub struct Xor {
    /// the variable of the generating gate
    pub generating: u32,
    /// that of the other gate
    pub other: u32,
    /// the generating gate's operands, the lesser literal first
    pub pair: (Lit, Lit),
}

/// The shape of a gate that is the exclusive or of two variables; None where v is no such gate's.
///
/// Of the two gates below it the generating one is the one that is read elsewhere or is an output's; where both or
/// neither are, the one with the lesser variable.
pub fn xor_of(graph: &Graph, v: u32) -> Option<Xor>
    requires in_range { v ≤ graph.now.max }
    ensures some { IfSome result (IsXorOf graph.now v) }
    ensures none { IsNone result ↔ ¬ (IsXorGate graph.now v) }
{
    let _max = graph.max();
    let top = graph.gate(v)?;
    let left = gate_below(graph, top.left)?;
    let right = gate_below(graph, top.right)?;
    shape_over(
        &left,
        is_shared(graph, left.v),
        &right,
        is_shared(graph, right.v),
    )
}

// The shape over two gates, where it is told of each whether it is read more than once.
pub(crate) fn shape_over(u: &Gate, u_shared: bool, w: &Gate, w_shared: bool) -> Option<Xor>
    ensures some { IfSome result (IsShapeOver u.now u_shared w.now w_shared) }
    ensures none { IsNone result → ¬ (AreTwo u.now w.now) }
{
    if !are_two(u, w) {
        return None;
    }
    if generates(u.v, u_shared, w.v, w_shared) {
        Some(xor_over(u, w))
    } else {
        Some(xor_over(w, u))
    }
}

// The variable whose negation a literal is.
pub(crate) fn negated_variable(lit: Lit) -> Option<u32>
    ensures some { IfSome result (λ v. IsNegated lit × (v ≡ variable_of lit)) }
    ensures none { IsNone result → ¬ (IsNegated lit) }
{
    if lit.negated() { Some(lit.var()) } else { None }
}

// Whether these are the operands, in either order.
pub(crate) fn reads(gate: &Gate, x: Lit, y: Lit) -> bool
    ensures { IsTrue result ↔ HasOperands gate.now x y }
{
    (gate.left == x && gate.right == y) || (gate.left == y && gate.right == x)
}

// The gate whose negation a literal is.
fn gate_below(graph: &Graph, lit: Lit) -> Option<Gate>
    requires in_range { variable_of lit ≤ graph.now.max }
    ensures some { IfSome result (IsBelow graph.now.gates lit) }
    ensures none { IsNone result → (x : AndGate) → ¬ (IsBelow graph.now.gates lit x) }
{
    graph.gate(negated_variable(lit)?)
}

// Whether more than one gate operand and output read a variable.
fn is_shared(graph: &Graph, v: u32) -> bool
    requires { v ≤ graph.now.max }
    ensures { IsTrue result ↔ 1 < reader_count graph.now v }
{
    graph.readers(v) > 1
}

// Whether two different gates are the AND of two literals of different variables and that of their negations.
fn are_two(u: &Gate, w: &Gate) -> bool
    ensures { IsTrue result ↔ AreTwo u.now w.now }
{
    let (x, y) = (u.left, u.right);
    u.v != w.v && x.var() > 0 && y.var() > 0 && x.var() != y.var() && reads(w, x.not(), y.not())
}

// Whether the first of two gates below a gate generates: it is read besides and the other isn't, or it is the lesser.
fn generates(u: u32, first: bool, w: u32, second: bool) -> bool
    ensures yes { result ≡ true → IsMoreRead u first w second }
    ensures no { result ≡ false → (u ≡ w) ⊎ IsMoreRead w second u first }
{
    if first == second { u < w } else { first }
}

// What is told of a generating gate and the other one.
fn xor_over(generating: &Gate, other: &Gate) -> Xor
    ensures { result ≡ shape_of generating.now other.now }
{
    let (left, right) = (generating.left, generating.right);
    Xor {
        generating: generating.v,
        other: other.v,
        pair: if left.0 <= right.0 {
            (left, right)
        } else {
            (right, left)
        },
    }
}

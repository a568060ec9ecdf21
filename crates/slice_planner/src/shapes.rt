// The shapes of half and full adders, operands in either order.
ghost use Rattle.std.specs.Prelude.{◌≡◌, ◌==◌};
ghost use Rattle.graph_core.specs.Graph.Literals.{inverted, plain};
ghost use Rattle.slice_planner.specs.Positions.{is_carried, is_full, is_half, reads};

use graph_core::{Gate, Lit};

/// Whether u and w are the ANDs of x and y and of their negations, and t that of !u and !w: carry and sum of x and y.
pub(crate) fn is_half(u: Gate, w: Gate, t: Gate) -> bool
    ensures { result ≡ is_half u w t }
{
    reads(w, u.left.not(), u.right.not()) && reads_negations(t, u.v, w.v)
}

/// Whether u, w, t are a half adder, e, f, s another one that takes t, and h the AND of both negated carries: the first
/// half adder, the second one, and h.
pub(crate) fn is_full(lower: (Gate, Gate, Gate), upper: (Gate, Gate, Gate), h: Gate) -> bool
    ensures { result ≡ is_full lower.0 lower.1 lower.2 upper.0 upper.1 upper.2 h }
{
    let (u, w, t) = lower;
    let (e, f, s) = upper;
    is_half(u, w, t)
        && (is_carried(t, e, f) && (reads_negations(s, e.v, f.v) && reads_negations(h, u.v, e.v)))
}

// Whether e takes t, and f the negations of both operands of e.
fn is_carried(t: Gate, e: Gate, f: Gate) -> bool
    ensures { result ≡ is_carried t e f }
{
    (is_variable(e.left, t.v) && reads_negation_and(f, t.v, e.right.not()))
        || (is_variable(e.right, t.v) && reads_negation_and(f, t.v, e.left.not()))
}

// Whether the operands are x and y.
fn reads(gate: Gate, x: Lit, y: Lit) -> bool
    ensures { result ≡ reads gate x y }
{
    (gate.left.0 == x.0 && gate.right.0 == y.0) || (gate.left.0 == y.0 && gate.right.0 == x.0)
}

// Whether the operands are the negation of a variable, and y.
fn reads_negation_and(gate: Gate, v: u32, y: Lit) -> bool
    ensures { result ≡ reads gate (inverted v) y }
{
    (is_negation(gate.left, v) && gate.right.0 == y.0)
        || (gate.left.0 == y.0 && is_negation(gate.right, v))
}

// Whether the operands are the negations of two variables.
fn reads_negations(gate: Gate, u: u32, w: u32) -> bool
    ensures { result ≡ reads gate (inverted u) (inverted w) }
{
    (is_negation(gate.left, u) && is_negation(gate.right, w))
        || (is_negation(gate.left, w) && is_negation(gate.right, u))
}

// Whether a literal is the variable itself.
fn is_variable(lit: Lit, v: u32) -> bool
    ensures { result ≡ (lit.0 == (plain v).0) }
{
    u64::from(lit.0) == 2 * u64::from(v)
}

// Whether a literal is the variable's negation.
fn is_negation(lit: Lit, v: u32) -> bool
    ensures { result ≡ (lit.0 == (inverted v).0) }
{
    u64::from(lit.0) == 2 * u64::from(v) + 1
}

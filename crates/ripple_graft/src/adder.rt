// The gates and the outputs of a ripple-carry adder after other gates.
ghost use Rattle.std.specs.Prelude.{◌≡◌, ◌+◌, ◌*◌, ◌<◌, ◌^◌, IfOk, length};
ghost use Rattle.graph_core.specs.Graph.Literals.{and_gate, inverted, plain};
ghost use Rattle.graph_core.specs.Graph.Positions.{carry_after, position, sum_after};
ghost use Rattle.ripple_graft.specs.Grafts.{IsAdderBehind};

use graph_core::{Gate, Lit};
use std::alloc::{AllocError, Global};

// Gates, the last of which are an adder's.
#[derive(Debug, Drop)]
pub struct Adder {
    // the greatest variable
    pub max: u32,
    pub gates: Vec<Gate>,
    // the sums, and the last carry
    pub outputs: Vec<Lit>,
}

// The adder of some pairs after gates: seven gates for each pair, numbered on, with the constant 0 as the first carry.
pub fn adder_behind(
    alloc: Global,
    from: u32,
    before: Vec<Gate>,
    pairs: &[(Lit, Lit)],
) -> Result<Adder, AllocError>
    requires { from + 7 * length pairs.now < 2 ^ 31 }
    ensures { IfOk result (IsAdderBehind from before.items pairs.now) }
{
    let mut max = from;
    let mut carry = Lit(0);
    let mut gates = before;
    let mut outputs = Vec::new(alloc);
    for (x, y) in pairs {
        gates.extend_from_slice(&position(max, *x, *y, carry))?;
        outputs.push(sum_after(max))?;
        carry = carry_after(max);
        max += 7;
    }
    outputs.push(carry)?;
    Ok(Adder {
        max,
        gates,
        outputs,
    })
}

// One position: its sum is the sixth of these, its carry the negation of the seventh.
fn position(v: u32, x: Lit, y: Lit, carry: Lit) -> [Gate; 7]
    requires { v + 7 < 2 ^ 31 }
    ensures { result ≡ position v x y carry }
{
    [
        and_gate(v + 1, x, y),
        and_gate(v + 2, x.not(), y.not()),
        and_gate(v + 3, inverted(v + 1), inverted(v + 2)),
        and_gate(v + 4, plain(v + 3), carry),
        and_gate(v + 5, inverted(v + 3), carry.not()),
        and_gate(v + 6, inverted(v + 4), inverted(v + 5)),
        and_gate(v + 7, inverted(v + 1), inverted(v + 4)),
    ]
}

// the sum of the position after a variable
fn sum_after(v: u32) -> Lit
    requires { v + 7 < 2 ^ 31 }
    ensures { result ≡ sum_after v }
{
    plain(v + 6)
}

// and its carry
fn carry_after(v: u32) -> Lit
    requires { v + 7 < 2 ^ 31 }
    ensures { result ≡ carry_after v }
{
    inverted(v + 7)
}

fn and_gate(v: u32, left: Lit, right: Lit) -> Gate
    ensures { result ≡ and_gate v left right }
{
    Gate { v, left, right }
}

// the literal of a variable
fn plain(v: u32) -> Lit
    requires { v < 2 ^ 31 }
    ensures { result ≡ plain v }
{
    Lit(2 * v)
}

// and its negation
fn inverted(v: u32) -> Lit
    requires { v < 2 ^ 31 }
    ensures { result ≡ inverted v }
{
    Lit(2 * v + 1)
}

// What is claimed of operands and an addend, as a number.
ghost use Rattle.std.specs.Prelude.{◌≡◌, ◌≤◌, ◌%◌, ◌^◌};
ghost use Rattle.graph_core.specs.Graph.Operands.{claimed_at};
ghost use Rattle.operand_search.specs.Numbers.{IsNumber};

use graph_core::{Numbers, Operands, Sign};

/// What so many outputs should be on these numbers: the product of what the operands stand for plus the addend, modulo
/// 2^outputs.
pub fn claimed_value(operands: &Operands, numbers: Numbers, outputs: u32) -> u128
    requires { outputs ≤ 128 }
    ensures { result ≡ claimed_at (2 ^ outputs) operands.now numbers % 2 ^ outputs }
{
    let sign = operands.sign();
    let a = number(sign, operands.a_width(), numbers.a);
    let b = number(sign, operands.b_width(), numbers.b);
    low_bits(a.wrapping_mul(b).wrapping_add(numbers.c), outputs)
}

// The number that the bits of an operand stand for, modulo 2^128.
fn number(sign: Sign, bits: u32, a: u64) -> u128
    requires { bits ≤ 64 }
    ensures { IsNumber sign bits a result }
{
    let number = u128::from(a);
    match sign {
        Sign::Unsigned => number,
        Sign::Signed => {
            if 2 * number < 1u128 << bits {
                number
            } else {
                number.wrapping_sub(1u128 << bits)
            }
        }
    }
}

// The lowest bits of a number.
fn low_bits(number: u128, bits: u32) -> u128
    requires { bits ≤ 128 }
    ensures { result ≡ number % 2 ^ bits }
{
    if bits < 128 {
        number % (1u128 << bits)
    } else {
        number
    }
}

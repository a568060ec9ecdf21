// The value of terms at an assignment.
ghost use Rattle.std.specs.Prelude.{◌≡◌, ◌%◌, ◌^◌};
ghost use Rattle.graph_core.specs.Graph.Assignments.{bit, listed, variable};
ghost use Rattle.algebra_core.specs.Polynomials.{product};
ghost use Rattle.mv_nums.specs.Residue.{IsWidth};
ghost use Rattle.poly_terms.specs.Monomials.{AreIn, total_in};

use crate::coefficient;
use crate::numbering::Numbering;
use crate::term::Term;

/// The sum of the coefficients whose variables are all true.
pub(crate) fn value_of(table: &Numbering, exponent: u32, entries: &[Term], values: &[bool]) -> u128
    requires exponent { IsWidth exponent }
    requires entries { AreIn table.now entries.now }
    ensures { result ≡ total_in table.now (listed values.now) entries.now % 2 ^ exponent }
{
    let mut sum: u128 = 0;
    for entry in entries {
        if are_true(table.variables(entry.number()), values) {
            sum = coefficient::sum(exponent, sum, entry.coefficient());
        }
    }
    sum
}

fn are_true(variables: &[u32], values: &[bool]) -> bool
    ensures { bit result ≡ product (listed values.now) variables.now }
{
    for v in variables {
        if !is_true(*v, values) {
            return false;
        }
    }
    true
}

// Whether a variable is true: the constant and those past the end aren't.
fn is_true(v: u32, values: &[bool]) -> bool
    ensures { result ≡ variable (listed values.now) v }
{
    v != 0 && values.get(v as usize).copied().unwrap_or(false)
}

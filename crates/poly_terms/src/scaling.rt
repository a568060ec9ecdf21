// Terms times a number, and divided by a power of two.
ghost use Rattle.std.specs.Prelude.{◌≡◌, ◌≢◌, ◌↔◌, ◌*◌, ◌%◌, ◌^◌, ◌<◌, All, Any, IfOk, IfSome, IsNone, IsTrue};
ghost use Rattle.mv_nums.specs.Residue.{IsWidth};
ghost use Rattle.poly_terms.specs.Entries.{IsMultiple, IsQuotient};

use crate::coefficient;
use crate::term::Term;
use std::alloc::{AllocError, Global};

/// Each term times a number, some of which may be 0 then.
pub(crate) fn multiples(
    alloc: Global,
    exponent: u32,
    entries: &[Term],
    by: u128,
) -> Result<Vec<Term>, AllocError>
    requires { IsWidth exponent }
    ensures { IfOk result (λ out. IsMultiple (2 ^ exponent) by entries.now out.items) }
{
    let mut out = Vec::with_capacity(alloc, entries.len())?;
    for entry in entries {
        let coefficient = coefficient::product(exponent, by, entry.coefficient());
        out.push(entry.with_coefficient(coefficient))?;
    }
    Ok(out)
}

/// Each term divided by 2^k, as a number of the least size. None where a coefficient isn't a multiple of it.
pub(crate) fn quotients(
    alloc: Global,
    exponent: u32,
    entries: &[Term],
    k: u32,
) -> Result<Option<Vec<Term>>, AllocError>
    requires exponent { IsWidth exponent }
    requires power { k < 128 }
    requires below { All (λ e. e.1 < 2 ^ exponent) entries.now }
    ensures quotient { IfOk result (λ r. IfSome r (λ out. IsQuotient (2 ^ exponent) (2 ^ k) entries.now out.items)) }
    ensures none { IfOk result (λ r. IsNone r ↔ Any (λ e. e.1 % 2 ^ k ≢ 0) entries.now) }
{
    let mut out = Vec::with_capacity(alloc, entries.len())?;
    for entry in entries {
        if !is_multiple(entry.coefficient(), k) {
            return Ok(None);
        }
        let quotient = shifted(exponent, entry.coefficient(), k);
        out.push(entry.with_coefficient(quotient))?;
    }
    Ok(Some(out))
}

// Whether a coefficient is a multiple of 2^k.
#[tactic(auto, using(std::proofs::lemmas::Nat::one_shl, std::proofs::lemmas::Nat::pow_pos))]
fn is_multiple(coefficient: u128, k: u32) -> bool
    requires { k < 128 }
    ensures { IsTrue result ↔ (coefficient % 2 ^ k ≡ 0) }
{
    coefficient % (1 << k) == 0
}

// A multiple of 2^k without its last k bits. Of the coefficient and its opposite the lesser one is shifted.
fn shifted(exponent: u32, coefficient: u128, k: u32) -> u128
    requires exponent { IsWidth exponent }
    requires power { k < 128 }
    requires below { coefficient < 2 ^ exponent }
    requires multiple { coefficient % 2 ^ k ≡ 0 }
    ensures below { result < 2 ^ exponent }
    ensures quotient { (2 ^ k * result) % 2 ^ exponent ≡ coefficient }
{
    let opposite = coefficient::opposite(exponent, coefficient);
    if coefficient <= opposite {
        return coefficient >> k;
    }
    coefficient::opposite(exponent, opposite >> k)
}

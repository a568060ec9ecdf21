// Monomials as they are looked up.
ghost use Rattle.std.specs.Prelude.{◌≡◌, ◌↔◌, IsTrue};
ghost use Rattle.poly_terms.specs.Hashed.{folded};

// An odd number whose bits are spread out, so that each variable counts in all of them.
const SPREAD: u64 = 0x9e37_79b9_7f4a_7c15;

// The variables as one number, which is most often another one for other variables.
#[inline(always)]
pub(crate) fn folded(variables: &[u32]) -> u64
    ensures { result ≡ folded variables.now }
{
    let mut number: u64 = 0;
    for v in variables {
        number = number.wrapping_mul(SPREAD).wrapping_add(u64::from(*v));
    }
    number
}

/// Whether two monomials are the same. Nearly all are so short that a call of std's comparison costs more.
#[inline(always)]
pub(crate) fn are_same(left: &[u32], right: &[u32]) -> bool
    ensures { IsTrue result ↔ (left.now ≡ right.now) }
{
    if left.len() != right.len() {
        return false;
    }
    for i in 0..left.len() {
        if left[i] != right[i] {
            return false;
        }
    }
    true
}

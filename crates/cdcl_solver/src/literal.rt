// Signed literals.
ghost use Rattle.std.specs.Prelude.{◌≡◌, ◌<◌, ◌^◌, neg_ℤ, pos};
ghost use Rattle.unit_prop.specs.Trail.{signed_variable};

/// The negation of a literal.
pub(crate) fn negation(lit: i32) -> i32
    requires { signed_variable lit < 2 ^ 31 }
    ensures { result ≡ neg_ℤ lit }
{
    -lit
}

/// A literal's variable.
pub(crate) fn variable(lit: i32) -> u32
    ensures { result ≡ signed_variable lit }
{
    lit.unsigned_abs()
}

/// The literal that says a variable is true.
pub(crate) fn positive(var: u32) -> i32
    requires { var < 2 ^ 31 }
    ensures { result ≡ pos var }
{
    var as i32
}

// Signed literals and their numbers.
ghost use Rattle.std.specs.Prelude.{◌≡◌, neg_ℤ};
ghost use Rattle.unit_prop.specs.Literals.{IsLiteral};
ghost use Rattle.unit_prop.specs.Trail.{signed_variable};
ghost use Rattle.unit_prop.specs.Watches.{code};

/// The number of a literal among those of its kind: 2v for the variable v, and 2v + 1 for its negation.
pub(crate) fn code_of(lit: i32) -> u32
    requires { IsLiteral lit }
    ensures { result ≡ code lit }
{
    2 * lit.unsigned_abs() + u32::from(lit < 0)
}

/// The literal that is true where this one is false.
pub(crate) fn negation(lit: i32) -> i32
    requires { IsLiteral lit }
    ensures value { result ≡ neg_ℤ lit }
    ensures literal { IsLiteral result }
{
    -lit
}

/// The variable of a literal.
pub(crate) fn variable_of(lit: i32) -> u32
    ensures { result ≡ signed_variable lit }
{
    lit.unsigned_abs()
}

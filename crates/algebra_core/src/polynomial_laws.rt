// Laws of normal forms: a polynomial has one, and it is empty exactly where the values are 0.
ghost use Rattle.algebra_core.specs.NormalForm.{NormalFormExists, NormalFormIsOne, NormalFormsDiffer, SizeIsOne};

/// A normal form with a monomial isn't 0 everywhere.
pub fn normal_forms_differ()
    ensures { NormalFormsDiffer }
{}

/// Two normal forms with one value have the same monomials.
pub fn normal_form_is_one()
    ensures { NormalFormIsOne }
{}

/// Each polynomial has a normal form of at most as many terms.
pub fn normal_form_exists()
    ensures { NormalFormExists }
{}

/// A function has one size.
pub fn size_is_one()
    ensures { SizeIsOne }
{}

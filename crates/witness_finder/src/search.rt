// The search for the least values of the inputs at which a polynomial isn't 0, as numbers.
ghost use Rattle.std.specs.Prelude.{◌≡◌, ◌<◌, ◌↔◌, IfSome, None, length, slice_index_or};
ghost use Rattle.graph_core.specs.Graph.Assignments.{Assignment};
ghost use Rattle.graph_core.specs.Graph.Operands.{AreInRange, inputs_at, inputs_in};
ghost use Rattle.algebra_core.specs.Polynomials.{Term};
ghost use Rattle.frontier_core.specs.LastFrontier.{IsOverInputs};
ghost use Rattle.frontier_core.specs.LeastDifference.{AreInputs, IsLeastNonzero, IsLeastTerm};
ghost use Rattle.poly_terms.specs.Tables.{IsOf, monomials_in, value_in};

use crate::comparison::comes_before;
use crate::ones::numbers_at;
use graph_core::{Numbers, Operands};
use poly_terms::{Poly, Terms};

/// The operands and the addend with the fewest one bits at which a polynomial over the inputs isn't 0, ties by the
/// lexicographically least list of input positions.
pub fn least(terms: &Terms, poly: &Poly, operands: &Operands) -> Option<Numbers>
    requires of { IsOf terms.now poly.now }
    requires inputs { AreInputs (inputs_in operands.now) }
    requires over { IsOverInputs (inputs_in operands.now) (monomials_in terms.now poly.now) }
    ensures none { result ≡ None ↔ ((σ : Assignment) → value_in terms.now poly.now σ ≡ 0) }
    ensures some { IfSome result (λ x. IsLeastNonzero (value_in terms.now poly.now) (inputs_in operands.now)
        (inputs_at operands.now x)) }
    ensures range { IfSome result (AreInRange operands.now) }
{
    if terms.size(poly) == 0 {
        return None;
    }
    let place = least_place(terms, poly, operands);
    Some(numbers_at(terms.vars(poly, place), operands))
}

// The place of a monomial that no other one precedes.
fn least_place(terms: &Terms, poly: &Poly, operands: &Operands) -> u64
    requires of { IsOf terms.now poly.now }
    requires inputs { AreInputs (inputs_in operands.now) }
    requires over { IsOverInputs (inputs_in operands.now) (monomials_in terms.now poly.now) }
    requires some { 0 < length (monomials_in terms.now poly.now) }
    ensures place { result < length (monomials_in terms.now poly.now) }
    ensures least { (d : Term) → let monomials = monomials_in terms.now poly.now in
        IsLeastTerm (inputs_in operands.now) monomials (slice_index_or monomials result d) }
{
    let mut best = 0;
    for i in 1..terms.size(poly) {
        if comes_before(terms.vars(poly, i), terms.vars(poly, best), operands) {
            best = i;
        }
    }
    best
}

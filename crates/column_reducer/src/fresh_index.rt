// The index of a frontier's function, made anew.
#![tactic(auto, using(poly_terms::specs::Laws::stays, poly_terms::specs::Laws::extends_on, poly_terms::specs::Laws::extends_itself, poly_terms::specs::Laws::indexed_stays))]

ghost use Rattle.std.specs.Prelude.{◌≡◌, OnOk};
ghost use Rattle.graph_core.specs.Graph.Assignments.{Assignment};
ghost use Rattle.poly_terms.specs.Indexed.{IsIndexed};
ghost use Rattle.poly_terms.specs.Tables.{IsOf, value_in};

use graph_core::Memory;
use poly_terms::{Indexed, Terms};
use std::alloc::Global;

/// Leaves in the index of a polynomial the numbers of its terms alone, and none of those that are gone.
pub(crate) fn index_anew(alloc: Global, terms: &Terms, rest: &mut Indexed) -> Result<(), Memory>
    requires { IsOf terms.now rest.old.sum }
    ensures of { OnOk result (IsOf terms.now rest.new.sum) }
    ensures indexed { OnOk result (IsIndexed terms.now rest.new) }
    ensures value { OnOk result ((σ : Assignment) →
        value_in terms.now rest.new.sum σ ≡ value_in terms.now rest.old.sum σ) }
{
    let poly = rest.to_poly()?;
    *rest = Indexed::new(alloc, terms);
    rest.add(terms, &poly)
}

// A line that is put together, part by part.
#![tactic(auto, using(poly_terms::specs::Laws::stays, poly_terms::specs::Laws::extends_on, poly_terms::specs::Laws::extends_itself))]

ghost use Rattle.std.specs.Prelude.{◌≡◌, ◌≤◌, [], List, IfOk, IfSome, IsTrue};
ghost use Rattle.std.specs.List.{All};
ghost use Rattle.algebra_core.specs.AlgebraLines.{LiveLine};
ghost use Rattle.poly_terms.specs.Tables.{Extends, IsOf};
ghost use Rattle.poly_text.specs.WrittenLaws.{IsUpTo};
ghost use Rattle.line_drafts.specs.Drafts.{IsKnownIn, IsOpen};

use crate::known::Known;
use gate_axioms::Draft;
use graph_core::Memory;
use poly_terms::{Poly, PolySum, Terms};
use std::alloc::Global;

/// Parts, and the sum of their lines, each times its factor.
#[derive(Debug, Drop)]
pub(crate) struct OpenDraft {
    pub(crate) parts: Vec<(u64, Poly)>,
    pub(crate) sum: PolySum,
    /// the greatest id of a part
    pub(crate) last: u64,
}

/// What a draft comes to, with the room of a sum that is left; none where one of its parts is at no place, or is 0,
/// or its ids don't rise, or a variable is above the greatest one.
pub(crate) fn opened(
    alloc: Global,
    terms: &mut Terms,
    room: PolySum,
    known: &[Known],
    draft: &Draft,
    max: u32,
) -> Result<Option<OpenDraft>, Memory>
    requires { All (λ k. IsOf terms.old k.poly) known.now }
    ensures extends { Extends terms.old terms.new }
    ensures of { IfOk result (λ r. IfSome r (λ o. IsOf terms.new o.sum)) }
    ensures opened { IfOk result (λ r. IfSome r (λ o. (live : List LiveLine) →
        All (IsKnownIn terms.old live) known.now → IsOpen max terms.new live o)) }
{
    let mut open = OpenDraft::new(alloc, terms, room);
    for (place, factor) in draft.parts.iter() {
        if *place >= known.len() {
            return Ok(None);
        }
        match open.with_part(terms, &known[*place], factor, max)? {
            None => return Ok(None),
            Some(more) => open = more,
        }
    }
    Ok(Some(open))
}

impl OpenDraft {
    // No part.
    fn new(alloc: Global, terms: &Terms, room: PolySum) -> OpenDraft
        ensures parts { result.parts.items ≡ [] }
        ensures sum { result.sum ≡ [] }
        ensures of { IsOf terms.now [] }
    {
        let mut sum = room;
        sum.clear(terms);
        OpenDraft {
            parts: Vec::new(alloc),
            sum,
            last: 0,
        }
    }

    // One part more, if it can be one.
    fn with_part(
        self,
        terms: &mut Terms,
        line: &Known,
        factor: &[(u128, Vec<u32>)],
        max: u32,
    ) -> Result<Option<OpenDraft>, Memory>
        requires line { IsOf terms.old line.now.poly }
        requires sum { IsOf terms.old self.sum }
        ensures extends { Extends terms.old terms.new }
        ensures of { IfOk result (λ r. IfSome r (λ o. IsOf terms.new o.sum)) }
        ensures opened { IfOk result (λ r. IfSome r (λ o. (live : List LiveLine) →
            IsKnownIn terms.old live line.now → IsOpen max terms.old live self → IsOpen max terms.new live o)) }
    {
        if line.id <= self.last {
            return Ok(None);
        }
        let factor = terms.make(factor)?;
        if terms.size(&factor) == 0 || !is_up_to(terms, &factor, max) {
            return Ok(None);
        }
        let mut open = self;
        terms.add_product(&mut open.sum, &line.poly, &factor)?;
        open.parts.push((line.id, factor))?;
        open.last = line.id;
        Ok(Some(open))
    }
}

/// Whether no variable is above the greatest one.
pub(crate) fn is_up_to(terms: &Terms, poly: &Poly, max: u32) -> bool
    requires { IsOf terms.now poly.now }
    ensures { IsTrue result → IsUpTo max terms.now poly.now }
{
    for i in 0..terms.size(poly) {
        if !are_up_to(terms.vars(poly, i), max) {
            return false;
        }
    }
    true
}

// Whether none of some variables is.
fn are_up_to(variables: &[u32], max: u32) -> bool
    ensures { IsTrue result → All (λ v. v ≤ max) variables.now }
{
    for v in variables {
        if *v > max {
            return false;
        }
    }
    true
}

// A draft as a line.
#![tactic(auto, using(poly_terms::specs::Laws::stays, poly_terms::specs::Laws::extends_on, poly_terms::specs::Laws::extends_itself))]

ghost use Rattle.std.specs.Prelude.{◌≡◌, ◌≤◌, ◌+◌, List, None, IfOk, IfSome, OnOk, length};
ghost use Rattle.std.specs.List.{All};
ghost use Rattle.algebra_core.specs.AlgebraLines.{LiveLine};
ghost use Rattle.poly_terms.specs.Tables.{Extends, IsOf};
ghost use Rattle.line_drafts.specs.LineRests.{GoesOn};
ghost use Rattle.line_drafts.specs.Drafts.{IsKnownIn, IsKnownOf, IsReady};

use crate::known::Known;
use crate::open_draft::{OpenDraft, is_up_to, opened};
use gate_axioms::Draft;
use graph_core::Memory;
use mv_fact::Grow;
use pac_writer::Lines;
use poly_terms::{Poly, PolySum, Terms};
use std::alloc::Global;
use std::mem;

// No line has a greater id.
const MOST_ID: u64 = 1 << 47;

/// A line that can be put, and its polynomial once more.
#[derive(Debug, Drop)]
pub(crate) struct Ready {
    pub(crate) parts: Vec<(u64, Poly)>,
    pub(crate) poly: Poly,
    pub(crate) copy: Poly,
}

/// Writes a draft's line, which then is the last one that is known. Whether it could be one. The sum is room alone: it
/// is kept from draft to draft, since it is as long as the table.
pub(crate) fn write_draft(
    alloc: Global,
    lines: &mut Lines<'_>,
    known: &mut Vec<Known>,
    room: &mut PolySum,
    draft: &Draft,
) -> Result<bool, Memory>
    requires unclosed { lines.old.closing ≡ None }
    requires known { All (IsKnownOf lines.old) known.old.items }
    ensures goes_on { GoesOn lines.old lines.new }
    ensures known { OnOk result (All (IsKnownOf lines.new) known.new.items) }
    ensures few { length lines.new.lines ≤ length lines.old.lines + 1 }
{
    let max = lines.extended().max();
    let mut work = MakeReady {
        alloc,
        known: known.as_slice(),
        draft,
        max,
    };
    let Some(line) = lines.grow(&mut work, room)? else {
        return Ok(false);
    };
    if lines.last() >= MOST_ID {
        return Ok(false);
    }
    let _modulus = lines.terms();
    let Ready { parts, poly, copy } = line;
    let id = lines.combine(parts, poly)?;
    known.push(Known { id, poly: copy })?;
    Ok(true)
}

// Puts a line together in the table that the lines own.
#[derive(Drop)]
struct MakeReady<'a> {
    alloc: Global,
    known: &'a [Known],
    draft: &'a Draft,
    max: u32,
}

impl<'a> Grow<Poly> for MakeReady<'a> {
    ghost use Rattle.std.specs.Prelude.{List, IfOk, IfSome};
    ghost use Rattle.std.specs.List.{All};
    ghost use Rattle.algebra_core.specs.AlgebraLines.{LiveLine};
    ghost use Rattle.poly_terms.specs.Tables.{IsOf};
    ghost use Rattle.line_drafts.specs.Drafts.{IsKnownIn, IsReady};

    type Out = Result<Option<Ready>, Memory>;

    type On = PolySum;

    ghost can_grow = { λ work _ table. All (λ k. IsOf table k.poly) work.known.now };

    ghost did = { λ work _ table out _ _ new. IfOk out (λ r. IfSome r (λ o. (live : List LiveLine) →
        All (IsKnownIn table live) work.known.now → IsReady work.max new live o)) };

    fn grow(&mut self, on: &mut PolySum, table: &mut Terms) -> Result<Option<Ready>, Memory> {
        let room = mem::replace(on, PolySum::new(self.alloc));
        match line_from(self.alloc, table, room, self.known, self.draft, self.max)? {
            None => Ok(None),
            Some((line, room)) => {
                *on = room;
                Ok(Some(line))
            }
        }
    }
}

// A draft's line, if it can be one, and the room again.
fn line_from(
    alloc: Global,
    terms: &mut Terms,
    room: PolySum,
    known: &[Known],
    draft: &Draft,
    max: u32,
) -> Result<Option<(Ready, PolySum)>, Memory>
    requires { All (λ k. IsOf terms.old k.poly) known.now }
    ensures extends { Extends terms.old terms.new }
    ensures ready { IfOk result (λ r. IfSome r (λ o. (live : List LiveLine) →
        All (IsKnownIn terms.old live) known.now → IsReady max terms.new live o.0)) }
{
    let Some(open) = opened(alloc, terms, room, known, draft, max)? else {
        return Ok(None);
    };
    let OpenDraft { parts, mut sum, .. } = open;
    let poly = sum.take(terms)?;
    if parts.is_empty() || !is_up_to(terms, &poly, max) {
        return Ok(None);
    }
    let copy = terms.multiple(&poly, 1)?;
    Ok(Some((Ready { parts, poly, copy }, sum)))
}

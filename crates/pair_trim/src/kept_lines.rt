// The lines of an algebra certificate that are kept.
ghost use Rattle.std.specs.Prelude.{◌≡◌, length, IfOk};
ghost use Rattle.poly_text.specs.Recorded.{AreMadeOfEarlier, AreRisingIds, ids_in};
ghost use Rattle.clause_core.specs.KeptClauses.{AreEarlier};
ghost use Rattle.pair_trim.specs.Lines.{AreLinesKept, MarksClosing, SetsClosing};

use crate::chosen::choose_pac;
use crate::marks::close;
use crate::operands::{all_uses, ids_of, place_in};
use drup_checker::Numbers;
use graph_core::Memory;
use poly_text::PacLine;
use std::alloc::Global;

/// Of lines that introduce ids, those that the closing line needs.
pub(crate) fn keep_lines(
    alloc: Global,
    lines: Vec<PacLine>,
    closing: u64,
) -> Result<Vec<PacLine>, Memory>
    requires rising { AreRisingIds (ids_in lines.items) }
    requires earlier { AreMadeOfEarlier lines.items }
    ensures { IfOk result (λ kept. AreLinesKept lines.items closing kept.items) }
{
    let ids = ids_of(alloc, &lines)?;
    let uses = all_uses(alloc, &ids, &lines)?;
    let mut marks = Vec::from_elem(alloc, false, lines.len())?;
    mark_closing(&mut marks, &ids, &uses, closing);
    let kept = choose_pac(alloc, &marks, lines)?;
    Ok(kept)
}

// Marks the line of the closing id, if there is one, and whatever marked lines use.
fn mark_closing(marks: &mut [bool], ids: &[u64], uses: &[Numbers], closing: u64)
    requires rising { AreRisingIds ids.now }
    requires long { length marks.old ≡ length uses.now }
    requires even { length ids.now ≡ length uses.now }
    requires earlier { AreEarlier uses.now }
    ensures { MarksClosing ids.now closing uses.now marks.old marks.new }
{
    set_closing(marks, ids, closing);
    close(marks, uses);
}

fn set_closing(marks: &mut [bool], ids: &[u64], closing: u64)
    requires rising { AreRisingIds ids.now }
    requires long { length marks.old ≡ length ids.now }
    ensures { SetsClosing ids.now closing marks.old marks.new }
{
    if let Some(place) = place_in(ids, closing) {
        marks[place] = true;
    }
}

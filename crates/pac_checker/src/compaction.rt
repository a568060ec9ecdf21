// The live lines over a table that is made anew.
#![tactic(auto, using(gate_axioms::proofs::CallerLemmas::keeps_lines))]

ghost use Rattle.std.specs.Prelude.{◌≡◌, [], IfOk, OnOk};
ghost use Rattle.gate_axioms.specs.Lines.{live_line_in};
ghost use Rattle.gate_axioms.specs.Steps.{AddsLine, Vanishes};
ghost use Rattle.pac_checker.specs.Rules.{Carries};

use crate::works::Bring;
use graph_core::{Gate, Memory};
use mv_fact::{InsertFail, Live};
use poly_terms::{Poly, Terms};
use std::alloc::Global;

// So many lines and terms are few: a table with at most twice as many monomials isn't made anew.
const FEW: u64 = 12_000;

// As many monomials as there may be where few lines and terms are live: a table that is made anew has room for them.
const ROOM: usize = 1 << 15;

/// How many monomials a table may have before it is made anew: twice as many as there are live lines and terms now.
/// These are what making it anew goes over, so that costs no more than reading what was read since.
pub(crate) fn most_monomials(live: &Live<'_, Poly>) -> u64 {
    let mut count: u64 = 0;
    for place in 0..live.len() {
        let (_, line) = live.at(place);
        count = count
            .saturating_add(live.table().size(line))
            .saturating_add(1);
    }
    count.max(FEW).saturating_mul(2)
}

/// The live lines over a new table, which takes their monomials alone.
pub(crate) fn compacted<'a>(
    alloc: Global,
    gates: &'a [Gate],
    live: &Live<'_, Poly>,
) -> Result<Live<'a, Poly>, Memory>
    requires { gates.now ≡ live.now.gates }
    ensures { IfOk result (Carries live.now) }
{
    let table = Terms::with_room(alloc, live.table().exponent(), ROOM)?;
    let mut compact = Live::new(alloc, gates, table);
    carry_all(&mut compact, live)?;
    Ok(compact)
}

// Makes the lines of another table live, where none is.
fn carry_all(compact: &mut Live<'_, Poly>, live: &Live<'_, Poly>) -> Result<(), Memory>
    requires none { compact.old.entries ≡ [] }
    requires gates { compact.old.gates ≡ live.now.gates }
    requires exponent { compact.old.table.exponent ≡ live.now.table.exponent }
    ensures { OnOk result (Carries live.now compact.new) }
{
    for place in 0..live.len() {
        let (id, line) = live.at(place);
        carry(compact, live.table(), id, line)?;
    }
    Ok(())
}

// Makes a line of another table live, unless its id has one.
fn carry(live: &mut Live<'_, Poly>, from: &Terms, id: u64, line: &Poly) -> Result<(), Memory>
    requires exponent { from.now.exponent ≡ live.old.table.exponent }
    requires vanishes { Vanishes live.old.gates from.now line.now }
    ensures { OnOk result (AddsLine (live_line_in from.now (id, line.now)) live.old live.new) }
{
    let brought = live.grow(&mut Bring { from, line }, &mut ())?;
    match live.insert(id, brought) {
        Ok(()) => Ok(()),
        Err(InsertFail::IdUsed) => Ok(()),
        Err(InsertFail::Memory) => Err(Memory),
    }
}

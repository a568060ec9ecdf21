// All drafts as lines, and what the last one leaves.
ghost use Rattle.std.specs.Prelude.{◌≡◌, ◌*◌, ◌+◌, ◌≤◌, [], None, IfOk, IfSome, length};
ghost use Rattle.std.specs.List.{All};
ghost use Rattle.graph_core.specs.Graph.Operands.{ReadInputs};
ghost use Rattle.pac_writer.specs.Writing.{GrowsWrittenTable, written_ledger};
ghost use Rattle.line_drafts.specs.Drafts.{IsKnownOf};
ghost use Rattle.line_drafts.specs.LineRests.{GoesOn, IsLineRest};

use crate::axiom_lines::axiom_lines;
use crate::known::Known;
use crate::line::write_draft;
use crate::remainder::left_of;
use gate_axioms::Draft;
use graph_core::{Memory, Operands};
use mv_fact::Grow;
use pac_writer::Lines;
use poly_terms::{Poly, PolySum, Terms};
use ripple_graft::Extended;
use std::alloc::Global;

/// Writes a line for each draft, and gives the specification minus the last one, and its id. None where there are too
/// many drafts, where one isn't a line, or where what is left has a variable that is no input's.
pub fn write_drafts(
    alloc: Global,
    lines: &mut Lines<'_>,
    drafts: &[Draft],
) -> Result<Option<(Poly, u64)>, Memory>
    requires new { lines.old.lines ≡ [] }
    requires unclosed { lines.old.closing ≡ None }
    ensures goes_on { GoesOn lines.old lines.new }
    ensures rest { IfOk result (λ r. IfSome r (λ x. IsLineRest lines.new.extended lines.new.sides
        lines.new.table (written_ledger lines.new).live x.0 x.1)) }
    ensures few { length lines.new.lines ≤ 16 * (length lines.new.extended.gates + 2) }
{
    if drafts.len() > most_lines(lines.extended()) {
        return Ok(None);
    }
    let mut known = known_axioms(alloc, lines)?;
    let mut room = PolySum::new(alloc);
    for draft in drafts {
        if !write_draft(alloc, lines, &mut known, &mut room, draft)? {
            return Ok(None);
        }
    }
    match known.pop() {
        None => Ok(None),
        Some(line) => rest_of(alloc, lines, line),
    }
}

// How many lines there may be.
fn most_lines(extended: &Extended<'_>) -> usize
    ensures { result ≤ 16 * (length extended.now.gates + 2) }
{
    extended.gates().len().saturating_add(2).saturating_mul(16)
}

// The axioms, in the table that the lines own.
fn known_axioms(alloc: Global, lines: &mut Lines<'_>) -> Result<Vec<Known>, Memory>
    requires { lines.old.lines ≡ [] }
    ensures grows { GrowsWrittenTable lines.old lines.new }
    ensures known { IfOk result (λ ks. All (IsKnownOf lines.new) ks.items) }
{
    // the ledger is that of the axioms
    let _last = lines.last();
    let mut work = MakeAxioms {
        alloc,
        extended: lines.extended(),
    };
    lines.grow(&mut work, &mut ())
}

// What a line that is known leaves.
fn rest_of(alloc: Global, lines: &mut Lines<'_>, line: Known) -> Result<Option<(Poly, u64)>, Memory>
    requires { IsKnownOf lines.old line }
    ensures grows { GrowsWrittenTable lines.old lines.new }
    ensures rest { IfOk result (λ r. IfSome r (λ x. IsLineRest lines.new.extended lines.new.sides
        lines.new.table (written_ledger lines.new).live x.0 x.1)) }
{
    let _modulus = lines.terms();
    let mut work = MakeRest {
        alloc,
        extended: lines.extended(),
        operands: lines.operands(),
        total: &line.poly,
    };
    match lines.grow(&mut work, &mut ())? {
        None => Ok(None),
        Some(poly) => Ok(Some((poly, line.id))),
    }
}

#[derive(Drop)]
struct MakeAxioms<'a> {
    alloc: Global,
    extended: &'a Extended<'a>,
}

impl<'a> Grow<Poly> for MakeAxioms<'a> {
    ghost use Rattle.std.specs.Prelude.{◌≡◌, IfOk};
    ghost use Rattle.std.specs.List.{All};
    ghost use Rattle.graph_core.specs.Graph.Extended as graphs;
    ghost use Rattle.poly_terms.specs.Tables.{modulus_in};
    ghost use Rattle.line_drafts.specs.Drafts.{IsAxiomOf};

    type Out = Result<Vec<Known>, Memory>;

    type On = ();

    ghost can_grow = { λ work _ table. modulus_in table ≡ graphs.modulus work.extended.now };

    ghost did = { λ work _ table out _ _ new. IfOk out (λ ks. All (IsAxiomOf work.extended.now new) ks.items) };

    fn grow(&mut self, on: &mut (), table: &mut Terms) -> Result<Vec<Known>, Memory> {
        axiom_lines(self.alloc, table, self.extended)
    }
}

#[derive(Drop)]
struct MakeRest<'a> {
    alloc: Global,
    extended: &'a Extended<'a>,
    operands: &'a Operands,
    total: &'a Poly,
}

impl<'a> Grow<Poly> for MakeRest<'a> {
    ghost use Rattle.std.specs.Prelude.{◌≡◌, IfOk, IfSome};
    ghost use Rattle.graph_core.specs.Graph.Extended as graphs;
    ghost use Rattle.poly_terms.specs.Tables.{IsOf, modulus_in};
    ghost use Rattle.line_drafts.specs.Drafts.{IsLeft};

    type Out = Result<Option<Poly>, Memory>;

    type On = ();

    ghost can_grow = { λ work _ table. IsOf table work.total.now × (modulus_in table ≡ graphs.modulus work.extended.now) };

    ghost did = { λ work _ table out _ _ new. IfOk out (λ r.
        IfSome r (IsLeft work.extended.now work.operands.now table new work.total.now)) };

    fn grow(&mut self, on: &mut (), table: &mut Terms) -> Result<Option<Poly>, Memory> {
        left_of(self.alloc, table, self.extended, self.operands, self.total)
    }
}

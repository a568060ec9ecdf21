// The lines of a certificate, each lawful as it is put.
ghost use Rattle.std.specs.Prelude.{◌≡◌, ◌+◌, ◌<◌, ◌≤◌, ◌^◌, [], All, None, IfOk, OnOk, OnErr, IsSome, IsSomeAnd, length};
ghost use Rattle.algebra_core.specs.AlgebraLines.{Closes, Delete, IsCombined, IsLive, axioms};
ghost use Rattle.graph_core.specs.Graph.Extended as graphs;
ghost use Rattle.frontier_core.specs.Pending.{AreSpare};
ghost use Rattle.mv_nums.specs.Residue.{IsWidth};
ghost use Rattle.poly_terms.specs.Tables.{modulus_in, monomials_in};
ghost use Rattle.poly_text.specs.Lines.{line_in, parts_in};
ghost use Rattle.pac_writer.specs.Certificates.{ArePartsOf};
ghost use Rattle.pac_writer.specs.Writing.{AreLawfulSoFar, ArePartsOver, GrowsWrittenTable, IsFresh, PutsLine, closed, combination_of, written_ledger};
ghost use Rattle.pac_writer.specs.Kept.{CanFollowLines, IsKeptLine};

use graph_core::{Memory, Operands};
use mv_fact::Grow;
use poly_terms::{Poly, Terms};
use poly_text::{PacLine, Parts};
use ripple_graft::Extended;
use std::alloc::{AllocError, Global};
use std::marker::Model;

/// Lines of a certificate over an extended graph, each of them lawful after those before it, and a table of their
/// own for the polynomials.
#[derive(Drop)]
pub struct Lines<'a> {
    extended: &'a Extended<'a>,
    operands: &'a Operands,
    pub(crate) terms: Terms,
    pub(crate) lines: Vec<PacLine>,
    /// the greatest id in use so far, also of lines that were deleted
    last: u64,
    pub(crate) closing: Option<u64>,
}

impl<'a> Model for Lines<'a> {
    ghost use Rattle.pac_writer.specs.Writing.{Made, made_of};
    ghost use Rattle.pac_writer.specs.Kept.{AreKept};

    ghost Value = { Made };

    ghost view = { λ l. made_of l.extended.now l.operands.now l.terms l.lines.items l.last l.closing };

    ghost invariant = { λ l. AreKept l.extended.now l.operands.now l.terms l.lines.items l.last l.closing };
}

impl<'a> Lines<'a> {
    /// No line: the axioms are live.
    pub fn new(
        alloc: Global,
        extended: &'a Extended<'a>,
        operands: &'a Operands,
    ) -> Result<Lines<'a>, Memory>
        requires outputs { IsWidth (length extended.now.graph.outputs) }
        ensures { IfOk result (IsFresh extended.entry.now operands.entry.now) }
    {
        let outputs = extended.graph().outputs();
        Ok(Lines {
            extended,
            operands,
            terms: Terms::for_gates(alloc, outputs, extended.gates().len())?,
            lines: Vec::new(alloc),
            last: last_axiom(extended),
            closing: None,
        })
    }

    /// The sum of live lines times polynomials, as a new line, whose id is one more than the greatest in use.
    pub fn combine(&mut self, parts: Vec<(u64, Poly)>, poly: Poly) -> Result<u64, Memory>
        requires unclosed { self.old.closing ≡ None }
        requires room { self.old.last + 1 < 2 ^ 48 }
        requires over { ArePartsOver self.old.extended.max self.old.table parts.items poly }
        requires spare { AreSpare (graphs.modulus self.old.extended) (written_ledger self.old).live
            (parts_in self.old.table parts.items) }
        requires equal { IsCombined (graphs.modulus self.old.extended) (written_ledger self.old).live
            (parts_in self.old.table parts.items) (monomials_in self.old.table poly) }
        ensures id { IfOk result (λ id. id ≡ self.old.last + 1) }
        ensures writes { IfOk result
            (λ id. PutsLine (combination_of self.old.table id parts.items poly) id self.old self.new) }
        ensures unchanged { OnErr result (self.new ≡ self.old) }
    {
        let id = self.last + 1;
        let parts = Parts::from(parts);
        self.put(PacLine::Combination { id, parts, poly }, id)?;
        Ok(id)
    }

    /// Deletes a live line. Its id isn't used again.
    pub fn drop_line(&mut self, id: u64) -> Result<(), Memory>
        requires unclosed { self.old.closing ≡ None }
        requires live { IsLive (written_ledger self.old).live id }
        ensures writes { OnOk result (PutsLine (Delete id) self.old.last self.old self.new) }
        ensures unchanged { OnErr result (self.new ≡ self.old) }
    {
        let last = self.last;
        self.put(PacLine::Drop { id }, last)
    }

    // Puts a lawful line after the others.
    fn put(&mut self, line: PacLine, last: u64) -> Result<(), Memory>
        requires unclosed { self.old.closing ≡ None }
        requires kept { IsKeptLine self.old.extended.max self.old.table line }
        requires lawful { IsSomeAnd (line_in self.old.table line) (CanFollowLines self.old last) }
        ensures writes { OnOk result
            (IsSomeAnd (line_in self.old.table line) (λ x. PutsLine x last self.old self.new)) }
        ensures unchanged { OnErr result (self.new ≡ self.old) }
    {
        match self.lines.push(line) {
            Err(e) => Err(AllocError::from(e).into()),
            Ok(()) => {
                self.last = last;
                Ok(())
            }
        }
    }

    /// Ends the certificate with a line of the specification's value.
    pub fn close(&mut self, id: u64)
        requires unclosed { self.old.closing ≡ None }
        requires closes { Closes self.old.extended self.old.sides (written_ledger self.old).live id }
        ensures { self.new ≡ closed self.old id }
    {
        self.closing = Some(id);
    }

    /// The table, the lines and the id that closes them, as `write_certificate` takes them.
    pub fn into_parts(self) -> (Terms, Vec<PacLine>, u64)
        requires { IsSome self.closing }
        ensures { ArePartsOf self.entry result.0 result.1.items result.2 }
    {
        match self.closing {
            Some(id) => (self.terms, self.lines, id),
            None => unreachable!(),
        }
    }

    /// Lends the table to a work. All lines keep their meaning.
    pub fn grow<G: Grow<Poly>>(&mut self, work: &mut G, on: &mut G::On) -> G::Out
        requires { G.can_grow work.old on.old self.old.table }
        ensures did { G.did work.old on.old self.old.table result work.new on.new self.new.table }
        ensures grows { GrowsWrittenTable self.old self.new }
    {
        work.grow(on, &mut self.terms)
    }

    /// The greatest id in use so far.
    pub fn last(&self) -> u64
        ensures last { result ≡ self.now.last }
        ensures lawful { AreLawfulSoFar self.now }
    {
        self.last
    }

    /// The table of the lines' polynomials.
    pub fn terms(&self) -> &Terms
        ensures table { result.now ≡ self.now.table }
        ensures modulus { modulus_in self.now.table ≡ graphs.modulus self.now.extended }
    {
        &self.terms
    }

    /// The extended graph, as it was lent.
    pub fn extended(&self) -> &'a Extended<'a>
        ensures { result.now ≡ self.now.extended }
    {
        self.extended
    }

    /// The operands, as they were lent.
    pub fn operands(&self) -> &'a Operands
        ensures { result.now ≡ self.now.sides }
    {
        self.operands
    }
}

// The greatest id of an axiom, or of a column that has none.
fn last_axiom(extended: &Extended<'_>) -> u64
    requires { IsWidth (length extended.now.graph.outputs) }
    ensures last { result ≡ (axioms extended.now).last }
    ensures ids { All (λ line. (0 < line.id) × (line.id ≤ result)) (axioms extended.now).live }
    ensures room { result < 2 ^ 48 }
    ensures small { extended.now.max < 2 ^ 31 }
{
    // each is that of a gate, or of a column after the gates
    let _gates = extended.gates();
    u64::from(extended.max()) + u64::from(extended.graph().outputs())
}

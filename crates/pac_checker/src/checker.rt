// The checker: a judge of lines, and the lines that it took.
#![tactic(auto)]

ghost use Rattle.std.specs.Prelude.{◌≡◌, ◌≤◌, ℕ, [], true, length, map, IfErr, IfOk, IsSome, OnErr, OnOk};
ghost use Rattle.std.specs.List.{All};
ghost use Rattle.algebra_core.specs.AlgebraLines.{AreLawful, beginning};
ghost use Rattle.graph_core.specs.Graph.Extended.{AgreeOnColumns};
ghost use Rattle.graph_core.specs.Graph.Extended as graphs;
ghost use Rattle.algebra_core.specs.Agreement.{LedgersAgree};
ghost use Rattle.mv_fact.specs.Always.{Always};
ghost use Rattle.poly_terms.specs.Tables.{modulus_in};
ghost use Rattle.poly_text.specs.Lines.{line_in, AreOf};
ghost use Rattle.poly_text.specs.Recorded.{AreMadeOfEarlier, AreRisingIds, HasNewId, ids_in, lines_in};
ghost use Rattle.clause_core.specs.Facts.{IsClauseFact};
ghost use Rattle.gate_axioms.specs.ClauseValues.{clause_value};
ghost use Rattle.pac_checker.specs.Checking.{ledger_of, checker_premises, TakesPacLine, GrowsCheckedTable, KeepsLedger, IsClosedBy, IsRecordable, SpecificationVanishes};
ghost use Rattle.pac_checker.specs.Faults.{IsPacLineFault, IsClosingFault};

use crate::judge::Judge;
use crate::record::{Record, keep};
use crate::{CloseFault, LineFault};
use clause_core::ClauseList;
use graph_core::{Memory, Operands};
use mv_fact::Grow;
use poly_terms::Poly;
use poly_text::PacLine;
use ripple_graft::Extended;
use std::alloc::Global;
use std::marker::Model;

/// The live polynomials of an algebra certificate over an extended graph, the clauses that its lines may import, and
/// the lines that were taken, where they are recorded.
#[derive(Drop)]
pub struct PacChecker<'a> {
    judge: Judge<'a>,
    records: bool,
    recorded: Vec<PacLine>,
}

impl<'a> Model for PacChecker<'a> {
    ghost use Rattle.poly_text.specs.Recorded.{lines_in};
    ghost use Rattle.pac_checker.specs.Checking.{AlgebraChecking, ledger_of, recording};
    ghost use Rattle.pac_checker.specs.Recording.{HasRecorded};

    ghost Value = { AlgebraChecking };

    ghost view = { λ c. recording c.judge c.records (lines_in c.judge.table c.recorded.items) };

    ghost invariant = { λ c. HasRecorded c.judge.extended c.judge.added c.judge.table (ledger_of c.judge) c.records c.recorded.items };
}

impl<'a> PacChecker<'a> {
    /// The axioms of an extended graph: those of its gates, and of each replaced column. Lines may import the
    /// clauses that were added. Where the checker records, the lines that it takes are kept, but for deletions.
    pub fn new(
        alloc: Global,
        extended: &'a Extended<'a>,
        operands: &'a Operands,
        added: &'a ClauseList,
        records: bool,
    ) -> Result<PacChecker<'a>, Memory>
        requires some { 1 ≤ length extended.now.graph.outputs }
        requires few { length extended.now.graph.outputs ≤ 128 }
        requires columns { Always extended.now.gates (AgreeOnColumns extended.now) }
        requires facts { All (IsClauseFact extended.now.gates) added.now }
        ensures extended { IfOk result (λ c. c.extended ≡ extended.entry.now) }
        ensures sides { IfOk result (λ c. c.sides ≡ operands.entry.now) }
        ensures added { IfOk result (λ c. c.added ≡ added.entry.now) }
        ensures records { IfOk result (λ c. c.records ≡ records) }
        ensures recorded { IfOk result (λ c. c.recorded ≡ []) }
        ensures modulus { IfOk result (λ c. modulus_in c.table ≡ graphs.modulus c.extended) }
        ensures axioms { IfOk result (λ c. (version : ℕ) → LedgersAgree (ledger_of c)
            (beginning (record { version = version; extended = extended.entry.now; imports = map clause_value added.entry.now }))) }
    {
        let judge = Judge::new(alloc, extended, operands, added)?;
        Ok(PacChecker {
            judge,
            records,
            recorded: Vec::new(alloc),
        })
    }

    /// Lends the table to a work, as to the reader of the next line.
    pub fn grow<G: Grow<Poly>>(&mut self, work: &mut G, on: &mut G::On) -> G::Out
        requires { G.can_grow work.old on.old self.old.table }
        ensures did { G.did work.old on.old self.old.table result work.new on.new self.new.table }
        ensures grows { GrowsCheckedTable self.old self.new }
        ensures modulus { modulus_in self.new.table ≡ graphs.modulus self.new.extended }
    {
        self.judge.grow(work, on)
    }

    /// Makes the table anew over the live polynomials, where it has more than twice as many monomials as there were
    /// live lines and terms when it was last made: so its size is in proportion to what is live. No other polynomial of
    /// the old table is one of the new table. Where lines are recorded nothing changes, since their polynomials are of
    /// the table.
    pub fn compact(&mut self) -> Result<(), Memory>
        ensures keeps { KeepsLedger self.old self.new }
        ensures unchanged { OnErr result (self.new ≡ self.old) }
    {
        if self.records {
            return Ok(());
        }
        self.judge.compact()
    }

    /// Judges a line. Where it is lawful it is taken, and else the answer is its first fault.
    pub fn line(&mut self, line: PacLine) -> Result<(), LineFault>
        requires goes_on { IsSome (line_in self.old.table line) }
        requires of_table { AreOf self.old.table line }
        requires recordable { self.old.records ≡ true →
            IsRecordable self.old.extended.max self.old.table line }
        ensures taken { OnOk result (TakesPacLine line self.old self.new) }
        ensures refused { IfErr result (IsPacLineFault self.old line) }
        ensures unchanged { OnErr result (GrowsCheckedTable self.old self.new) }
    {
        if !self.records {
            return self.judge.line(&line);
        }
        match self.recorded.try_reserve(1) {
            Ok(()) => {}
            Err(_) => return Err(LineFault::Memory),
        }
        self.judge.line(&line)?;
        keep(&mut self.recorded, line);
        Ok(())
    }

    /// Judges a closing line: that the line has the value of the specification. Then that vanishes on every evaluation,
    /// and recorded lines are lawful and close too.
    pub fn close(&mut self, id: u64) -> Result<(), CloseFault>
        ensures closes { OnOk result (IsClosedBy self.old id) }
        ensures vanishes { OnOk result (SpecificationVanishes self.old) }
        ensures recorded { self.old.records ≡ true → OnOk result ((version : ℕ) →
            AreLawful (checker_premises version self.old) self.old.sides self.old.recorded id) }
        ensures refused { IfErr result (IsClosingFault self.old id) }
        ensures unchanged { GrowsCheckedTable self.old self.new }
    {
        self.judge.close(id)
    }

    /// The recorded lines and the table of their polynomials, where the checker isn't needed any more. Their ids
    /// rise, each is made of lines with lesser ids, and each can be written.
    pub fn into_record(self) -> Record
        ensures lines { lines_in result.terms result.lines.items ≡ self.entry.recorded }
        ensures terms { result.terms ≡ self.entry.table }
        ensures modulus { modulus_in result.terms ≡ graphs.modulus self.entry.extended }
        ensures of_table { All (AreOf result.terms) result.lines.items }
        ensures recordable { All (IsRecordable self.entry.extended.max result.terms) result.lines.items }
        ensures new_ids { All HasNewId result.lines.items }
        ensures rising { AreRisingIds (ids_in result.lines.items) }
        ensures earlier { AreMadeOfEarlier result.lines.items }
    {
        Record {
            lines: self.recorded,
            terms: self.judge.into_terms(),
        }
    }
}

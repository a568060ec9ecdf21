// The judge of lines: live polynomials, line by line.
#![tactic(auto, using(crate::proofs::Lawful::sound_grown, crate::proofs::Lawful::grows, crate::proofs::Lawful::grows_itself, crate::proofs::LineKinds::grows_grown, gate_axioms::proofs::CallerLemmas::keeps_lines, poly_terms::specs::Laws::stays))]

ghost use Rattle.std.specs.Prelude.{◌≡◌, ◌%◌, ◌<◌, ◌≤◌, None, Some, length, IfErr, IfOk, IsSome, OnErr, OnOk};
ghost use Rattle.std.specs.List.{All};
ghost use Rattle.algebra_core.specs.AlgebraLines.{Delete};
ghost use Rattle.graph_core.specs.Graph.Extended.{AgreeOnColumns};
ghost use Rattle.graph_core.specs.Graph.Extended as graphs;
ghost use Rattle.mv_fact.specs.Always.{Always};
ghost use Rattle.poly_terms.specs.Tables.{IsOf, modulus_in, monomials_in};
ghost use Rattle.poly_text.specs.Lines.{line_in, AreOf};
ghost use Rattle.clause_core.specs.Facts.{IsClauseFact};
ghost use Rattle.gate_axioms.specs.Axioms.{HasSpecificationValue};
ghost use Rattle.gate_axioms.specs.LeftAxioms.{HasAxiomValue};
ghost use Rattle.algebra_core.specs.Agreement.{LedgersAgree};
ghost use Rattle.pac_checker.specs.Checking.{ledger_of, TakesAlgebraLine, TakesPacLine, GrowsCheckedTable, KeepsLedger, IsClosedBy, SpecificationVanishes};
ghost use Rattle.pac_checker.specs.Faults.{IsPacLineFault, IsClosingFault};
ghost use Rattle.pac_checker.specs.Recording.{AreIdsWithin, first_ledger};
ghost use Rattle.gate_axioms.specs.Steps.{Vanishes};
ghost use Rattle.pac_checker.specs.Rules.{AreEqual, AreRefused, HasAxiom, HasNoAxiom, Introduces, IsAxiomOf, IsRefused, IsStatingFault, TakesLinesOf, clause_numbered, combination_line, import_line, lent, product_line, sum_line};
ghost use Rattle.pac_checker.specs.Works.{IsPolyOfValue};

use crate::compaction::{compacted, most_monomials};
use crate::rules::combine;
use crate::works::{MakeAxiom, MakeClause, MakeOne, MakeSpecification};
use crate::{CloseFault, LineFault};
use clause_core::{Clause, ClauseList};
use gate_axioms::{Axiom, LeftAxioms};
use graph_core::{Memory, Operands};
use mv_fact::{Grow, Live};
use poly_terms::{Poly, PolySum, Terms};
use poly_text::PacLine;
use ripple_graft::Extended;
use std::alloc::Global;
use std::marker::Model;

/// The axioms of an extended graph that are left, the live polynomials of an algebra certificate over it, and the
/// clauses that its lines may import. It records nothing.
#[derive(Drop)]
pub(crate) struct Judge<'a> {
    alloc: Global,
    added: &'a ClauseList,
    left: LeftAxioms<'a>,
    operands: &'a Operands,
    live: Live<'a, Poly>,
    /// the greatest id in use so far, also of lines that were dropped
    last: u64,
    /// what the latest line names, as far as it was added up: each line takes its room over
    products: PolySum,
    /// with more monomials the table is made anew
    most_monomials: u64,
}

impl<'a> Model for Judge<'a> {
    ghost use Rattle.pac_checker.specs.Checking.{AlgebraChecking, checking_of};
    ghost use Rattle.pac_checker.specs.Rules.{IsCheckerSound};

    ghost Value = { AlgebraChecking };

    ghost view = { λ c. checking_of c.added.now c.left c.operands.now c.live c.last };

    ghost invariant = { λ c. IsCheckerSound c.added.now c.left c.operands.now c.live c.last };
}

impl<'a> Judge<'a> {
    /// The axioms of an extended graph: those of its gates, and of each replaced column. Lines may import the
    /// clauses that were added.
    pub(crate) fn new(
        alloc: Global,
        extended: &'a Extended<'a>,
        operands: &'a Operands,
        added: &'a ClauseList,
    ) -> Result<Judge<'a>, Memory>
        requires some { 1 ≤ length extended.now.graph.outputs }
        requires few { length extended.now.graph.outputs ≤ 128 }
        requires columns { Always extended.now.gates (AgreeOnColumns extended.now) }
        requires facts { All (IsClauseFact extended.now.gates) added.now }
        ensures extended { IfOk result (λ c. c.extended ≡ extended.entry.now) }
        ensures sides { IfOk result (λ c. c.sides ≡ operands.entry.now) }
        ensures added { IfOk result (λ c. c.added ≡ added.entry.now) }
        ensures modulus { IfOk result (λ c. modulus_in c.table ≡ graphs.modulus c.extended) }
        ensures axioms { IfOk result (λ c. LedgersAgree (ledger_of c) (first_ledger extended.entry.now added.entry.now)) }
        ensures within { IfOk result (λ c. AreIdsWithin (ledger_of c)) }
    {
        let outputs = extended.graph().outputs();
        let live = Live::new(alloc, extended.gates(), Terms::new(alloc, outputs));
        let most_monomials = most_monomials(&live);
        Ok(Judge {
            alloc,
            added,
            left: LeftAxioms::new(alloc, extended),
            operands,
            live,
            last: u64::from(extended.max()) + u64::from(outputs),
            products: PolySum::new(alloc),
            most_monomials,
        })
    }

    /// Gives up the lines, and hands out the table.
    pub(crate) fn into_terms(self) -> Terms
        ensures table { result ≡ self.entry.table }
        ensures modulus { modulus_in self.entry.table ≡ graphs.modulus self.entry.extended }
    {
        self.live.into_table()
    }

    /// Lends the table to a work, as to the reader of the next line.
    pub(crate) fn grow<G: Grow<Poly>>(&mut self, work: &mut G, on: &mut G::On) -> G::Out
        requires { G.can_grow work.old on.old self.old.table }
        ensures did { G.did work.old on.old self.old.table result work.new on.new self.new.table }
        ensures grows { GrowsCheckedTable self.old self.new }
        ensures modulus { modulus_in self.new.table ≡ graphs.modulus self.new.extended }
    {
        self.live.grow(work, on)
    }

    /// Makes the table anew over the live polynomials, where it has more than twice as many monomials as there were
    /// live lines and terms when it was last made: so its size is in proportion to what is live. No other polynomial of
    /// the old table is one of the new table.
    pub(crate) fn compact(&mut self) -> Result<(), Memory>
        ensures keeps { KeepsLedger self.old self.new }
        ensures unchanged { OnErr result (self.new ≡ self.old) }
    {
        if self.live.table().count() <= self.most_monomials {
            return Ok(());
        }
        self.live = compacted(self.alloc, self.left.extended().gates(), &self.live)?;
        self.most_monomials = most_monomials(&self.live);
        Ok(())
    }

    /// Judges a line. Where it is lawful it is taken, and else the answer is its first fault.
    pub(crate) fn line(&mut self, line: &PacLine) -> Result<(), LineFault>
        requires goes_on { IsSome (line_in self.old.table line.now) }
        requires of_table { AreOf self.old.table line.now }
        ensures taken { OnOk result (TakesPacLine line.now self.old self.new) }
        ensures refused { IfErr result (IsPacLineFault self.old line.now) }
        ensures unchanged { OnErr result (GrowsCheckedTable self.old self.new) }
    {
        match line {
            PacLine::Sum { id, i, j, poly } => self.sum(*id, *i, *j, poly),
            PacLine::Product {
                id,
                i,
                factor,
                poly,
            } => self.product(*id, *i, factor, poly),
            PacLine::Combination { id, parts, poly } => {
                self.combination(*id, parts.as_slice(), poly)
            }
            PacLine::Import { id, clause, poly } => self.import(*id, *clause, poly),
            PacLine::Drop { id } => self.delete(*id),
            PacLine::Close { .. } => unreachable!(),
        }
    }

    /// Judges a closing line: that the line has the value of the specification. Then that vanishes on every evaluation.
    pub(crate) fn close(&mut self, id: u64) -> Result<(), CloseFault>
        ensures closes { OnOk result (IsClosedBy self.old id) }
        ensures vanishes { OnOk result (SpecificationVanishes self.old) }
        ensures refused { IfErr result (IsClosingFault self.old id) }
        ensures unchanged { GrowsCheckedTable self.old self.new }
    {
        let wanted = self.specification()?;
        match self.left.get(id) {
            Some(given) => self.compare_axiom(id, &given, &wanted),
            None => self.compare(id, &wanted),
        }
    }

    fn specification(&mut self) -> Result<Poly, Memory>
        ensures grows { GrowsCheckedTable self.old self.new }
        ensures of_table { IfOk result (IsOf self.new.table) }
        ensures value { IfOk result
            (λ p. HasSpecificationValue self.new.table p self.old.extended self.old.sides) }
    {
        let mut work = MakeSpecification {
            alloc: self.alloc,
            graph: self.left.extended().graph(),
            operands: self.operands,
        };
        self.live.grow(&mut work, &mut ())
    }

    // Whether an axiom has the value that is wanted.
    fn compare_axiom(&mut self, id: u64, given: &Axiom, wanted: &Poly) -> Result<(), CloseFault>
        requires is_left { IsAxiomOf self.old id given.now }
        requires wanted { IsOf self.old.table wanted.now }
        requires value { HasSpecificationValue self.old.table wanted.now self.old.extended
            self.old.sides }
        ensures closes { OnOk result (IsClosedBy self.old id) }
        ensures vanishes { OnOk result (SpecificationVanishes self.old) }
        ensures refused { IfErr result (IsClosingFault self.old id) }
        ensures unchanged { GrowsCheckedTable self.old self.new }
    {
        let poly = self.axiom_poly(given)?;
        if !self.live.table().equals(&poly, wanted) {
            return Err(CloseFault::NotSpec);
        }
        Ok(())
    }

    // The polynomial of an axiom.
    fn axiom_poly(&mut self, given: &Axiom) -> Result<Poly, Memory>
        ensures grows { GrowsCheckedTable self.old self.new }
        ensures of_table { IfOk result (IsOf self.new.table) }
        ensures value { IfOk result (λ p. HasAxiomValue self.new.table p given.now) }
        ensures modulus { modulus_in self.new.table ≡ graphs.modulus self.old.extended }
        ensures columns { Always self.old.extended.gates (AgreeOnColumns self.old.extended) }
    {
        let mut work = MakeAxiom {
            alloc: self.alloc,
            given,
        };
        self.live.grow(&mut work, &mut ())
    }

    // Whether a line that was introduced has the value that is wanted.
    fn compare(&self, id: u64, wanted: &Poly) -> Result<(), CloseFault>
        requires no_axiom { HasNoAxiom self.now id }
        requires wanted { IsOf self.now.table wanted.now }
        requires value { HasSpecificationValue self.now.table wanted.now self.now.extended
            self.now.sides }
        ensures closes { OnOk result (IsClosedBy self.now id) }
        ensures vanishes { OnOk result (SpecificationVanishes self.now) }
        ensures refused { IfErr result (IsClosingFault self.now id) }
    {
        match self.live.get(id) {
            None => Err(CloseFault::NoSuchLine(id)),
            Some(poly) => {
                if self.live.table().equals(poly, wanted) {
                    Ok(())
                } else {
                    Err(CloseFault::NotSpec)
                }
            }
        }
    }

    // A sum is a combination of two lines, each times 1.
    fn sum(&mut self, id: u64, i: u64, j: u64, poly: &Poly) -> Result<(), LineFault>
        requires { IsOf self.old.table poly.now }
        ensures taken { OnOk result
            (TakesAlgebraLine (sum_line self.old.table id i j poly.now) self.old self.new) }
        ensures refused { IfErr result
            (IsRefused self.old (sum_line self.old.table id i j poly.now)) }
        ensures unchanged { OnErr result (GrowsCheckedTable self.old self.new) }
    {
        let one = self.one()?;
        self.introduce(id, &[(i, &one), (j, &one)], poly)
    }

    // A product is a combination of one line.
    fn product(&mut self, id: u64, i: u64, factor: &Poly, poly: &Poly) -> Result<(), LineFault>
        requires factor_of_table { IsOf self.old.table factor.now }
        requires of_table { IsOf self.old.table poly.now }
        ensures taken { OnOk result
            (TakesAlgebraLine (product_line self.old.table id i factor.now poly.now) self.old self.new) }
        ensures refused { IfErr result
            (IsRefused self.old (product_line self.old.table id i factor.now poly.now)) }
        ensures unchanged { OnErr result (GrowsCheckedTable self.old self.new) }
    {
        self.introduce(id, &[(i, factor)], poly)
    }

    fn combination(&mut self, id: u64, parts: &[(u64, Poly)], poly: &Poly) -> Result<(), LineFault>
        requires parts_of_table { All (λ part. IsOf self.old.table part.1) parts.now }
        requires of_table { IsOf self.old.table poly.now }
        ensures taken { OnOk result
            (TakesAlgebraLine (combination_line self.old.table id parts.now poly.now) self.old self.new) }
        ensures refused { IfErr result
            (IsRefused self.old (combination_line self.old.table id parts.now poly.now)) }
        ensures unchanged { OnErr result (GrowsCheckedTable self.old self.new) }
    {
        let parts = lend(self.alloc, parts)?;
        self.introduce(id, &parts, poly)
    }

    // An import states the value of an added clause.
    fn import(&mut self, id: u64, number: u64, stated: &Poly) -> Result<(), LineFault>
        requires { IsOf self.old.table stated.now }
        ensures taken { OnOk result
            (TakesAlgebraLine (import_line self.old.table id number stated.now) self.old self.new) }
        ensures refused { IfErr result
            (IsRefused self.old (import_line self.old.table id number stated.now)) }
        ensures unchanged { OnErr result (GrowsCheckedTable self.old self.new) }
    {
        judge_id(self.last, id)?;
        let clause = clause_at(self.added, number)?;
        let mut work = MakeClause {
            alloc: self.alloc,
            clause,
        };
        let named = self.live.grow(&mut work, &mut ())?;
        self.state(id, named, stated)
    }

    // The rule of every line that introduces an id but an import: it states the sum of live lines, each times a factor.
    fn introduce(&mut self, id: u64, parts: &[(u64, &Poly)], stated: &Poly) -> Result<(), LineFault>
        requires parts_of_table { All (λ part. IsOf self.old.table part.1.now) parts.now }
        requires of_table { IsOf self.old.table stated.now }
        ensures taken { OnOk result
            (TakesLinesOf id (lent parts.now) stated.now self.old self.new) }
        ensures refused { IfErr result (AreRefused self.old id (lent parts.now) stated.now) }
        ensures unchanged { OnErr result (GrowsCheckedTable self.old self.new) }
    {
        judge_id(self.last, id)?;
        let named = combine(
            self.alloc,
            &mut self.products,
            &self.left,
            &mut self.live,
            parts,
        )?;
        self.state(id, named, stated)
    }

    // Compares the polynomial that a rule names with the stated one, and makes it live under a new id.
    fn state(&mut self, id: u64, named: Poly, stated: &Poly) -> Result<(), LineFault>
        requires new_id { self.old.last < id }
        requires named { Vanishes self.old.extended.gates self.old.table named }
        requires stated { IsOf self.old.table stated.now }
        ensures equal { OnOk result (AreEqual self.old.table named stated.now) }
        ensures introduced { OnOk result
            (Introduces id (monomials_in self.old.table stated.now) self.old self.new) }
        ensures refused { IfErr result (IsStatingFault self.old.table named stated.now) }
        ensures unchanged { OnErr result (self.new ≡ self.old) }
    {
        if !self.live.table().equals(&named, stated) {
            return Err(LineFault::NotEqual);
        }
        match self.live.insert(id, named) {
            Ok(()) => {
                self.last = id;
                Ok(())
            }
            Err(_) => Err(LineFault::Memory),
        }
    }

    // The polynomial 1.
    fn one(&mut self) -> Result<Poly, Memory>
        ensures grows { GrowsCheckedTable self.old self.new }
        ensures one { IfOk result (IsPolyOfValue self.new.table (λ σ. 1 % modulus_in self.old.table)) }
    {
        self.live.grow(&mut MakeOne { alloc: self.alloc }, &mut ())
    }

    fn delete(&mut self, id: u64) -> Result<(), LineFault>
        ensures taken { OnOk result (TakesAlgebraLine (Delete id) self.old self.new) }
        ensures refused { IfErr result (IsRefused self.old (Delete id)) }
        ensures unchanged { OnErr result (GrowsCheckedTable self.old self.new) }
    {
        match self.left.get(id) {
            Some(_) => self.delete_axiom(id),
            None => self.delete_line(id),
        }
    }

    fn delete_axiom(&mut self, id: u64) -> Result<(), LineFault>
        requires is_left { HasAxiom self.old id }
        ensures taken { OnOk result (TakesAlgebraLine (Delete id) self.old self.new) }
        ensures refused { IfErr result (IsRefused self.old (Delete id)) }
        ensures unchanged { OnErr result (GrowsCheckedTable self.old self.new) }
    {
        self.left.delete(id)?;
        Ok(())
    }

    // Deletes a line that was introduced.
    fn delete_line(&mut self, id: u64) -> Result<(), LineFault>
        requires no_axiom { HasNoAxiom self.old id }
        ensures taken { OnOk result (TakesAlgebraLine (Delete id) self.old self.new) }
        ensures refused { IfErr result (IsRefused self.old (Delete id)) }
        ensures unchanged { OnErr result (GrowsCheckedTable self.old self.new) }
    {
        match self.live.remove(id) {
            Ok(_) => {}
            Err(_) => return Err(LineFault::NoSuchLine(id)),
        }
        Ok(())
    }
}

// A new id is above the last one.
fn judge_id(last: u64, id: u64) -> Result<(), LineFault>
    ensures new { OnOk result (last < id) }
    ensures used { IfErr result (λ fault. (fault ≡ LineFault.Id) × (id ≤ last)) }
{
    if id <= last {
        return Err(LineFault::Id);
    }
    Ok(())
}

// The added clause of a number, from 1 on.
fn clause_at(added: &ClauseList, number: u64) -> Result<&Clause, LineFault>
    ensures some { IfOk result (λ c. clause_numbered added.now number ≡ Some c.now) }
    ensures none { IfErr result (λ fault. (fault ≡ LineFault.NoSuchClause number) ×
        (clause_numbered added.now number ≡ None)) }
{
    if number == 0 {
        return Err(LineFault::NoSuchClause(number));
    }
    if number > added.len() as u64 {
        return Err(LineFault::NoSuchClause(number));
    }
    Ok(added.get((number - 1) as usize))
}

// Parts whose factors are lent.
fn lend<'a>(alloc: Global, parts: &'a [(u64, Poly)]) -> Result<Vec<(u64, &'a Poly)>, Memory>
    ensures { IfOk result (λ out. lent out.items ≡ parts.entry.now) }
{
    let mut out = Vec::with_capacity(alloc, parts.len())?;
    for (id, factor) in parts {
        out.push((*id, factor))?;
    }
    Ok(out)
}

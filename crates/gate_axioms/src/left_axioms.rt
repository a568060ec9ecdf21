// The axioms of an extended graph that weren't deleted. None is kept: each is found by its id where it is used.
ghost use Rattle.std.specs.Prelude.{◌≡◌, ◌+◌, ◌*◌, ◌%◌, ◌<◌, ◌≤◌, [], IfOk, OnErr, OnOk, length};
ghost use Rattle.algebra_core.specs.AlgebraLines.{axioms, line_of};
ghost use Rattle.algebra_core.specs.Agreement.{AreSame};
ghost use Rattle.graph_core.specs.Graph.Assignments.{Assignment};
ghost use Rattle.graph_core.specs.Graph.Extended as graphs;
ghost use Rattle.poly_terms.specs.Tables.{Extends, IsOf, modulus_in, value_in};
ghost use Rattle.ripple_graft.specs.Extension.{IsExtension};
ghost use Rattle.gate_axioms.specs.Form.{HasFormValue};
ghost use Rattle.gate_axioms.specs.LeftAxioms.{Deletes, HasAxiomValue, axiom_line, axiom_value, left_lines};
ghost use Rattle.gate_axioms.specs.ReplacedColumns.{column_by, replaced_column};

use crate::axioms::{equal_form, equal_poly, gate_form, gate_poly};
use crate::form::Form;
use graph_core::{Gate, Lit, Memory};
use indexmap::IndexSet;
use poly_terms::{Poly, PolySum, Terms, Variables};
use ripple_graft::Extended;
use std::alloc::Global;
use std::marker::Model;

/// An axiom of an extended graph.
#[derive(Clone, Copy, Debug, PartialEq, Eq)]
pub enum Axiom {
    /// of a gate: the product of its operands minus its variable
    Gate(Gate),
    /// of a replaced column: its old output minus its new one
    Column(Lit, Lit),
}

impl Axiom {
    /// Its polynomial in a table.
    pub fn poly(&self, alloc: Global, terms: &mut Terms) -> Result<Poly, Memory>
        ensures extends { Extends terms.old terms.new }
        ensures of { IfOk result (λ p. IsOf terms.new p) }
        ensures value { IfOk result (λ p. HasAxiomValue terms.new p self.now) }
    {
        match self {
            Axiom::Gate(gate) => gate_poly(alloc, terms, gate),
            Axiom::Column(old, new) => equal_poly(alloc, terms, *old, *new),
        }
    }

    /// Adds it times a polynomial to a sum, with no polynomial of its own.
    pub fn add_times(
        &self,
        alloc: Global,
        terms: &mut Terms,
        sum: &mut PolySum,
        factor: &Poly,
    ) -> Result<(), Memory>
        requires sum { IsOf terms.old sum.old }
        requires factor { IsOf terms.old factor.now }
        ensures extends { Extends terms.old terms.new }
        ensures of { OnOk result (IsOf terms.new sum.new) }
        ensures value { OnOk result ((σ : Assignment) → value_in terms.new sum.new σ ≡
            (value_in terms.old sum.old σ + axiom_value (modulus_in terms.old) self.now σ * value_in terms.old factor.now σ)
            % modulus_in terms.old) }
    {
        let form = self.form(alloc, terms, sum.take_room())?;
        form.add_times(terms, sum, factor)?;
        sum.keep_room(form.into_room());
        Ok(())
    }

    // Its parts, in room that has none.
    fn form(
        &self,
        alloc: Global,
        terms: &Terms,
        room: Vec<(u128, Variables)>,
    ) -> Result<Form, Memory>
        requires { room.items ≡ [] }
        ensures { IfOk result (λ form. HasFormValue (modulus_in terms.now) form
            (axiom_value (modulus_in terms.now) self.now)) }
    {
        let form = Form::in_room(alloc, room);
        match self {
            Axiom::Gate(gate) => gate_form(form, terms, gate),
            Axiom::Column(old, new) => equal_form(form, terms, *old, *new),
        }
    }
}

/// The axioms of an extended graph that weren't deleted, by their ids: that of a gate has the gate's variable, that
/// of a replaced column k the greatest variable + 1 + k.
#[derive(Drop)]
pub struct LeftAxioms<'a> {
    extended: &'a Extended<'a>,
    deleted: IndexSet<u64>,
}

impl<'a> Model for LeftAxioms<'a> {
    ghost use Rattle.gate_axioms.specs.LeftAxioms.{LeftAxioms as Left};

    ghost Value = { Left };

    ghost view = { λ a. record { extended = a.extended.now; deleted = a.deleted.keys } };
}

impl<'a> LeftAxioms<'a> {
    /// All of them.
    pub fn new(alloc: Global, extended: &'a Extended<'a>) -> LeftAxioms<'a>
        ensures extended { result.extended ≡ extended.entry.now }
        ensures all { result.deleted ≡ [] }
    {
        LeftAxioms {
            extended,
            deleted: IndexSet::new(alloc),
        }
    }

    /// The extended graph.
    pub fn extended(&self) -> &'a Extended<'a>
        ensures { result.now ≡ self.now.extended }
    {
        self.extended
    }

    /// The axiom with this id, if there is one and it wasn't deleted.
    pub fn get(&self, id: u64) -> Option<Axiom>
        ensures { AreSame (line_of (left_lines self.now) id)
            (axiom_line (graphs.modulus self.now.extended) id result) }
    {
        if self.deleted.contains(&id) {
            return None;
        }
        axiom_of(self.extended, id)
    }

    /// Deletes the axiom with this id.
    pub fn delete(&mut self, id: u64) -> Result<(), Memory>
        ensures deletes { OnOk result (Deletes id self.old self.new) }
        ensures unchanged { OnErr result (self.new ≡ self.old) }
    {
        match self.deleted.insert(id) {
            Ok(_) => {}
            Err(_) => return Err(Memory),
        }
        Ok(())
    }
}

// The axiom of a graph with this id.
fn axiom_of(extended: &Extended<'_>, id: u64) -> Option<Axiom>
    ensures { AreSame (line_of (axioms extended.now).live id)
        (axiom_line (graphs.modulus extended.now) id result) }
{
    let max = u64::from(extended.max());
    if id <= max {
        return gate_axiom_of(extended, id as u32);
    }
    let k = id - max - 1;
    if k >= u64::from(extended.graph().outputs()) {
        return None;
    }
    column_axiom_of(extended, k as u32)
}

// The axiom of the gate of a variable.
fn gate_axiom_of(extended: &Extended<'_>, v: u32) -> Option<Axiom>
    requires in_range { v ≤ extended.now.max }
    ensures { AreSame (line_of (axioms extended.now).live v)
        (axiom_line (graphs.modulus extended.now) v result) }
{
    let _gates = extended.gates();
    match extended.gate(v) {
        None => None,
        Some(gate) => Some(Axiom::Gate(gate)),
    }
}

// The axiom of column k.
fn column_axiom_of(extended: &Extended<'_>, k: u32) -> Option<Axiom>
    requires in_range { k < length extended.now.graph.outputs }
    ensures { AreSame (line_of (axioms extended.now).live (extended.now.max + 1 + k))
        (axiom_line (graphs.modulus extended.now) (extended.now.max + 1 + k) result) }
{
    let _gates = extended.gates();
    match column_at(extended, k) {
        None => None,
        Some((old, new)) => Some(Axiom::Column(old, new)),
    }
}

// The old and the new output of column k, where it is replaced.
fn column_at(extended: &Extended<'_>, k: u32) -> Option<(Lit, Lit)>
    requires in_range { k < length extended.now.graph.outputs }
    requires extension { IsExtension extended.now }
    ensures { column_by k result ≡ replaced_column extended.now k }
{
    if !extended.replaced(k) {
        return None;
    }
    let old = extended.graph().output(k);
    let new = extended.new_output(k);
    Some((old, new))
}

// Works on the table of the live polynomials.
ghost use Rattle.std.specs.Prelude.{IfOk};

use clause_core::Clause;
use gate_axioms::{Axiom, clause_poly, spec_poly};
use graph_core::{Graph, Memory, Operands};
use mv_fact::{Grow, GrowFrom};
use poly_terms::{Poly, PolySum, Terms};
use std::alloc::Global;

/// Adds a live line times a factor to a sum.
#[derive(Drop)]
pub(crate) struct AddProduct<'a> {
    pub(crate) factor: &'a Poly,
}

impl<'a> GrowFrom<Poly> for AddProduct<'a> {
    ghost use Rattle.std.specs.Prelude.{◌*◌, OnOk};
    ghost use Rattle.poly_terms.specs.Tables.{IsOf, value_in};
    ghost use Rattle.pac_checker.specs.Works.{IsAddedTo};

    type Out = Result<(), Memory>;

    type On = PolySum;

    ghost can_grow = { λ work sum table. IsOf table sum × IsOf table work.factor.now };

    ghost did = { λ work sum line table out _ sum' table'.
        OnOk out (IsAddedTo table table' sum sum' (λ σ. value_in table line σ * value_in table work.factor.now σ)) };

    fn grow(&mut self, sum: &mut PolySum, line: &Poly, table: &mut Terms) -> Result<(), Memory> {
        table.add_product(sum, line, self.factor)
    }
}

/// Adds an axiom times a factor to a sum.
#[derive(Drop)]
pub(crate) struct AddAxiom<'a> {
    pub(crate) alloc: Global,
    pub(crate) given: &'a Axiom,
    pub(crate) factor: &'a Poly,
}

impl<'a> Grow<Poly> for AddAxiom<'a> {
    ghost use Rattle.std.specs.Prelude.{◌*◌, OnOk};
    ghost use Rattle.poly_terms.specs.Tables.{IsOf, modulus_in, value_in};
    ghost use Rattle.gate_axioms.specs.LeftAxioms.{axiom_value};
    ghost use Rattle.pac_checker.specs.Works.{IsAddedTo};

    type Out = Result<(), Memory>;

    type On = PolySum;

    ghost can_grow = { λ work sum table. IsOf table sum × IsOf table work.factor.now };

    ghost did = { λ work sum table out _ sum' table'. OnOk out (IsAddedTo table table' sum sum'
        (λ σ. axiom_value (modulus_in table) work.given.now σ * value_in table work.factor.now σ)) };

    fn grow(&mut self, sum: &mut PolySum, table: &mut Terms) -> Result<(), Memory> {
        self.given.add_times(self.alloc, table, sum, self.factor)
    }
}

/// Makes the polynomial of an axiom.
#[derive(Drop)]
pub(crate) struct MakeAxiom<'a> {
    pub(crate) alloc: Global,
    pub(crate) given: &'a Axiom,
}

impl<'a> Grow<Poly> for MakeAxiom<'a> {
    ghost use Rattle.std.specs.Prelude.{IfOk};
    ghost use Rattle.gate_axioms.specs.LeftAxioms.{HasAxiomValue};
    ghost use Rattle.poly_terms.specs.Tables.{IsOf};

    type Out = Result<Poly, Memory>;

    type On = ();

    ghost did = { λ work _ _ out _ _ table'. IfOk out (λ p. IsOf table' p ×
        HasAxiomValue table' p work.given.now) };

    fn grow(&mut self, _on: &mut (), table: &mut Terms) -> Result<Poly, Memory> {
        self.given.poly(self.alloc, table)
    }
}

/// Makes the polynomial of a line of another table anew.
#[derive(Drop)]
pub(crate) struct Bring<'a> {
    pub(crate) from: &'a Terms,
    pub(crate) line: &'a Poly,
}

impl<'a> Grow<Poly> for Bring<'a> {
    ghost use Rattle.std.specs.Prelude.{◌≡◌, IfOk};
    ghost use Rattle.poly_terms.specs.Tables.{IsOf, value_in};
    ghost use Rattle.pac_checker.specs.Works.{IsPolyOfValue};

    type Out = Result<Poly, Memory>;

    type On = ();

    ghost can_grow = { λ work _ table. (work.from.now.exponent ≡ table.exponent) ×
        IsOf work.from.now work.line.now };

    ghost did = { λ work _ _ out _ _ table'.
        IfOk out (IsPolyOfValue table' (value_in work.from.now work.line.now)) };

    fn grow(&mut self, _on: &mut (), table: &mut Terms) -> Result<Poly, Memory> {
        table.bring(self.from, self.line)
    }
}

/// Makes the polynomial 1.
#[derive(Drop)]
pub(crate) struct MakeOne {
    pub(crate) alloc: Global,
}

impl Grow<Poly> for MakeOne {
    ghost use Rattle.std.specs.Prelude.{◌%◌, IfOk};
    ghost use Rattle.poly_terms.specs.Tables.{modulus_in};
    ghost use Rattle.pac_checker.specs.Works.{IsPolyOfValue};

    type Out = Result<Poly, Memory>;

    type On = ();

    ghost did = { λ _ _ table out _ _ table'. IfOk out (IsPolyOfValue table' (λ σ. 1 % modulus_in table)) };

    fn grow(&mut self, _on: &mut (), table: &mut Terms) -> Result<Poly, Memory> {
        table.make(&[(1, Vec::new(self.alloc))])
    }
}

/// Makes the polynomial of a clause.
#[derive(Drop)]
pub(crate) struct MakeClause<'a> {
    pub(crate) alloc: Global,
    pub(crate) clause: &'a Clause,
}

impl<'a> Grow<Poly> for MakeClause<'a> {
    ghost use Rattle.std.specs.Prelude.{IfOk};
    ghost use Rattle.gate_axioms.specs.ClauseValues.{IsClausePoly};
    ghost use Rattle.poly_terms.specs.Tables.{IsOf};

    type Out = Result<Poly, Memory>;

    type On = ();

    ghost did = { λ work _ _ out _ _ table'. IfOk out (λ p. IsOf table' p ×
        IsClausePoly table' p work.clause.now) };

    fn grow(&mut self, _on: &mut (), table: &mut Terms) -> Result<Poly, Memory> {
        clause_poly(self.alloc, table, self.clause)
    }
}

/// Makes the specification: the outputs' word minus the product of the operands' words.
#[derive(Drop)]
pub(crate) struct MakeSpecification<'a> {
    pub(crate) alloc: Global,
    pub(crate) graph: &'a Graph,
    pub(crate) operands: &'a Operands,
}

impl<'a> Grow<Poly> for MakeSpecification<'a> {
    ghost use Rattle.std.specs.Prelude.{◌≡◌, IfOk};
    ghost use Rattle.graph_core.specs.Graph.Extended.{without_cut};
    ghost use Rattle.graph_core.specs.Graph.Extended.{modulus as modulus_of};
    ghost use Rattle.poly_terms.specs.Tables.{IsOf, modulus_in};
    ghost use Rattle.gate_axioms.specs.Axioms.{HasSpecificationValue};

    type Out = Result<Poly, Memory>;

    type On = ();

    ghost can_grow = { λ work _ table. modulus_in table ≡ modulus_of (without_cut work.graph.now) };

    ghost did = { λ work _ _ out _ _ table'. IfOk out (λ p. IsOf table' p ×
        HasSpecificationValue table' p (without_cut work.graph.now) work.operands.now) };

    fn grow(&mut self, _on: &mut (), table: &mut Terms) -> Result<Poly, Memory> {
        spec_poly(self.alloc, table, self.graph, self.operands)
    }
}

// A polynomial that changes, with an index from variables to its terms.
ghost use Rattle.std.specs.Prelude.{◌≡◌, ◌<◌, ◌+◌, ◌%◌, ◌^◌, ◌∷◌, ℕ, false, [], IfOk, OnOk, length, get_or};
ghost use Rattle.std.specs.List.{AllByRecursion};
ghost use Rattle.graph_core.specs.Graph.Assignments.{Assignment};
ghost use Rattle.algebra_core.specs.NormalForm.{HasSize};
ghost use Rattle.mv_nums.specs.Residue.{IsWidth};
ghost use Rattle.poly_terms.specs.Indexed.{AreIndexed, HasAddedTerms, IsGone, IsIndexed, TakesOut, Enters, EntersNew};
ghost use Rattle.poly_terms.specs.Monomials.{AreIn};
ghost use Rattle.poly_terms.specs.Tables.{ArePlacesOf, IsOf, Table, assigned, modulus_in, quotient_value, value_in};

use crate::counted_coefficients::CountedCoefficients;
use crate::numbering::Numbering;
use crate::numbers::Numbers;
use crate::places::Places;
use crate::term::Term;
use crate::{Poly, Terms, addition, coefficient, monomial};
use graph_core::Memory;
use std::alloc::{AllocError, Global};
use std::marker::Model;

/// A polynomial of a table that changes in place. It knows which of its terms have a variable, so that a change takes
/// time for the terms that change alone. Where a call wants memory, nothing more is known of the polynomial.
#[derive(Debug, Drop)]
pub struct Indexed {
    alloc: Global,
    coefficients: CountedCoefficients,
    places: Places,
}

impl Model for Indexed {
    ghost use Rattle.poly_terms.specs.Indexed.{IndexedSum, terms_from};

    ghost Value = { IndexedSum };

    ghost view = { λ x. record { sum = terms_from 0 x.coefficients; places = x.places } };
}

impl Indexed {
    /// The polynomial 0.
    pub fn new(alloc: Global, terms: &Terms) -> Indexed
        ensures of { IsOf terms.now result.sum }
        ensures indexed { IsIndexed terms.now result }
        ensures value { (σ : Assignment) → value_in terms.now result.sum σ ≡ 0 }
    {
        terms.numbering().stand_once();
        Indexed {
            alloc,
            coefficients: CountedCoefficients::new(alloc),
            places: Places::new(alloc),
        }
    }

    /// Adds a polynomial.
    pub fn add(&mut self, terms: &Terms, p: &Poly) -> Result<(), Memory>
        requires of { IsOf terms.now self.old.sum }
        requires indexed { IsIndexed terms.now self.old }
        requires addend { IsOf terms.now p.now }
        ensures of { OnOk result (IsOf terms.now self.new.sum) }
        ensures indexed { OnOk result (IsIndexed terms.now self.new) }
        ensures value { OnOk result ((σ : Assignment) → value_in terms.now self.new.sum σ ≡
            (value_in terms.now self.old.sum σ + value_in terms.now p.now σ) % modulus_in terms.now) }
    {
        add_all(
            terms.exponent(),
            terms.numbering(),
            &mut self.coefficients,
            &mut self.places,
            p.entries(),
        )?;
        Ok(())
    }

    /// Takes out the terms that have a variable.
    pub fn take(&mut self, terms: &Terms, v: u32) -> Result<Poly, Memory>
        requires of { IsOf terms.now self.old.sum }
        requires indexed { IsIndexed terms.now self.old }
        requires variable { 0 < v }
        ensures of { OnOk result (IsOf terms.now self.new.sum) }
        ensures indexed { OnOk result (IsIndexed terms.now self.new) }
        ensures none { OnOk result (ArePlacesOf terms.now self.new.sum v []) }
        ensures rest { OnOk result ((σ : Assignment) →
            value_in terms.now self.new.sum σ ≡ value_in terms.now self.old.sum (assigned σ v false)) }
        ensures taken { IfOk result (IsOf terms.now) }
        ensures sum { IfOk result (λ p. (σ : Assignment) → value_in terms.now self.old.sum σ ≡
            (value_in terms.now self.new.sum σ + value_in terms.now p σ) % modulus_in terms.now) }
        ensures quotient { IfOk result (λ p. (σ : Assignment) →
            quotient_value terms.now p v σ ≡ quotient_value terms.now self.old.sum v σ) }
    {
        let numbers = self.places.take(v);
        let raw = take_out(
            self.alloc,
            terms.numbering(),
            &mut self.coefficients,
            v,
            &numbers,
        )?;
        let entries = addition::gather(self.alloc, terms.exponent(), raw)?;
        Ok(Poly::of(entries))
    }

    /// How many monomials it has in its normal form. The empty monomial counts.
    pub fn size(&self) -> u64
        ensures terms { result ≡ length self.now.sum }
        ensures size { (t : Table) → IsOf t self.now.sum →
            HasSize (modulus_in t) (value_in t self.now.sum) result }
    {
        self.coefficients.count()
    }

    /// The polynomial as it is now.
    pub fn to_poly(&self) -> Result<Poly, Memory>
        ensures { IfOk result (λ p. p ≡ self.now.sum) }
    {
        let entries = self.coefficients.terms(self.alloc)?;
        Ok(Poly::of(entries))
    }
}

// Adds terms.
fn add_all(
    width: u32,
    table: &Numbering,
    coefficients: &mut CountedCoefficients,
    places: &mut Places,
    entries: &[Term],
) -> Result<(), AllocError>
    requires width { IsWidth width }
    requires entries { AreIn table.now entries.now }
    requires indexed { AreIndexed (2 ^ width) table.now coefficients.old places.old }
    ensures { OnOk result
        (HasAddedTerms (2 ^ width) table.now coefficients.old coefficients.new places.new entries.now) }
{
    for entry in entries {
        add_term(width, table, coefficients, places, entry)?;
    }
    Ok(())
}

fn add_term(
    width: u32,
    table: &Numbering,
    coefficients: &mut CountedCoefficients,
    places: &mut Places,
    term: &Term,
) -> Result<(), AllocError>
    requires width { IsWidth width }
    requires term { term.now.0 < length table.now }
    requires indexed { AreIndexed (2 ^ width) table.now coefficients.old places.old }
    ensures { OnOk result
        (HasAddedTerms (2 ^ width) table.now coefficients.old coefficients.new places.new (term.now ∷ [])) }
{
    let number = term.number();
    coefficients.reach(number)?;
    let before = coefficients.at(number);
    enter_new(table, places, number, before)?;
    coefficients.put(number, coefficient::sum(width, before, term.coefficient()))
}

// Puts a number at the places of its variables, where it had the coefficient 0.
fn enter_new(
    table: &Numbering,
    places: &mut Places,
    number: u64,
    before: u128,
) -> Result<(), AllocError>
    requires { number < length table.now }
    ensures { OnOk result (EntersNew before number (get_or table.now number []) places.old places.new) }
{
    if before == 0 {
        places.enter(table.variables(number), number)?;
    }
    Ok(())
}

// Takes out the terms of these numbers that have the variable.
fn take_out(
    alloc: Global,
    table: &Numbering,
    coefficients: &mut CountedCoefficients,
    v: u32,
    numbers: &Numbers,
) -> Result<Vec<Term>, AllocError>
    requires { (n : ℕ) → 0 < get_or coefficients.old n 0 → n < length table.now }
    ensures taken { IfOk result (λ out. TakesOut table.now v coefficients.old coefficients.new [] out.items) }
    ensures gone { OnOk result ((k : ℕ) → k < length numbers.now →
        IsGone table.now v coefficients.new (get_or numbers.now k 0)) }
{
    let mut out = Vec::new(alloc);
    for place in 0..numbers.len() {
        take_one(table, coefficients, v, numbers.at(place) as u64, &mut out)?;
    }
    Ok(out)
}

// Takes out a number's term, if it has the variable.
fn take_one(
    table: &Numbering,
    coefficients: &mut CountedCoefficients,
    v: u32,
    number: u64,
    out: &mut Vec<Term>,
) -> Result<(), AllocError>
    requires { (n : ℕ) → 0 < get_or coefficients.old n 0 → n < length table.now }
    ensures taken { OnOk result
        (TakesOut table.now v coefficients.old coefficients.new out.old.items out.new.items) }
    ensures gone { OnOk result (IsGone table.now v coefficients.new number) }
{
    let coefficient = coefficients.at(number);
    if coefficient != 0 && monomial::has_variable(table.variables(number), v) {
        out.push(Term::new(number, coefficient))?;
        coefficients.clear(number);
    }
    Ok(())
}

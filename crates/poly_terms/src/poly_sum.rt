// Sums of many polynomials and products of one table.
ghost use Rattle.std.specs.Prelude.{◌≡◌, ◌+◌, ◌*◌, ◌%◌, ◌^◌, ◌<◌, ◌∷◌, ℕ, [], IfOk, OnOk, length, get_or};
ghost use Rattle.std.specs.List.{Contains};
ghost use Rattle.graph_core.specs.Graph.Assignments.{Assignment};
ghost use Rattle.algebra_core.specs.Polynomials.{sum_of};
ghost use Rattle.mv_nums.specs.Residue.{IsWidth};
ghost use Rattle.poly_terms.specs.Monomials.{Adds, AreIn, Grows, total_in};
ghost use Rattle.poly_terms.specs.PolySums.{AreListed, AreTaken, IsAdded, IsLess};
ghost use Rattle.poly_terms.specs.Tables.{IsOf, modulus_in, said, table_of, value_in};

use crate::coefficients::Coefficients;
use crate::numbering::Numbering;
use crate::term::Term;
use crate::{Poly, Terms, Variables, addition, coefficient, multiple_sum, product_sum};
use graph_core::Memory;
use std::alloc::{AllocError, Global};
use std::marker::Model;
use std::mem;

/// Polynomials and products of a table, as far as they are added up. Each monomial has one place, so that nothing is
/// sorted before the whole sum is taken. Where a call wants memory, nothing more is known of the sum.
#[derive(Debug, Drop)]
pub struct PolySum {
    alloc: Global,
    coefficients: Coefficients,
    /// the numbers of the terms; some may stand there twice, and some that have no term any more
    numbers: Vec<u64>,
    /// room for parts, in which nothing is kept
    room: Vec<(u128, Variables)>,
}

impl Model for PolySum {
    ghost use Rattle.poly_terms.specs.Entries.{Sum};
    ghost use Rattle.poly_terms.specs.Indexed.{terms_from};
    ghost use Rattle.poly_terms.specs.PolySums.{AreListed};

    ghost Value = { Sum };

    ghost view = { λ s. terms_from 0 s.coefficients };

    ghost invariant = { λ s. AreListed s.coefficients s.numbers.items };
}

impl PolySum {
    /// The sum of none, which is 0.
    pub fn new(alloc: Global) -> PolySum
        ensures { result ≡ [] }
    {
        PolySum {
            alloc,
            coefficients: Coefficients::new(alloc),
            numbers: Vec::new(alloc),
            room: Vec::new(alloc),
        }
    }

    /// Adds a polynomial.
    pub fn add(&mut self, terms: &Terms, p: &Poly) -> Result<(), Memory>
        requires of { IsOf terms.now self.old }
        requires addend { IsOf terms.now p.now }
        ensures of { OnOk result (IsOf terms.now self.new) }
        ensures value { OnOk result ((σ : Assignment) → value_in terms.now self.new σ ≡
            (value_in terms.now self.old σ + value_in terms.now p.now σ) % modulus_in terms.now) }
    {
        add_all(
            terms.exponent(),
            &mut self.coefficients,
            &mut self.numbers,
            p.entries(),
        )?;
        Ok(())
    }

    /// Leaves 0, whatever was added. The room stays.
    pub fn clear(&mut self, terms: &Terms)
        ensures none { self.new ≡ [] }
        ensures of { IsOf terms.now self.new }
    {
        terms.numbering().stand_once();
        clear_all(&mut self.coefficients, &self.numbers);
        self.numbers.clear();
    }

    /// Lends room for parts that are to be added, which has none yet: to take it anew for each few parts would cost more
    /// than to add them.
    pub fn take_room(&mut self) -> Vec<(u128, Variables)>
        ensures none { result.items ≡ [] }
        ensures same { self.new ≡ self.old }
    {
        let mut room = mem::replace(&mut self.room, Vec::new(self.alloc));
        room.clear();
        room
    }

    /// Takes room back, whatever is in it.
    pub fn keep_room(&mut self, room: Vec<(u128, Variables)>)
        ensures { self.new ≡ self.old }
    {
        self.room = room;
    }

    // the products of each term with each
    pub(crate) fn add_products(
        &mut self,
        width: u32,
        table: &mut Numbering,
        left: &[Term],
        right: &[Term],
    ) -> Result<(), AllocError>
        requires width { IsWidth width }
        requires left { AreIn table.old left.now }
        requires right { AreIn table.old right.now }
        ensures grows { Grows table.old table.new }
        ensures of { OnOk result (IsOf (table_of width table.old) self.old → IsOf (table_of width table.new) self.new) }
        ensures adds { OnOk result (Adds (2 ^ width) table.old table.new self.old self.new
            (λ σ. total_in table.old σ left.now * total_in table.old σ right.now)) }
    {
        product_sum::add_products(
            width,
            table,
            &mut self.coefficients,
            &mut self.numbers,
            left,
            right,
        )
    }

    // the products of each term with each part
    pub(crate) fn add_multiples(
        &mut self,
        width: u32,
        table: &mut Numbering,
        entries: &[Term],
        parts: &[(u128, Variables)],
    ) -> Result<(), AllocError>
        requires width { IsWidth width }
        requires entries { AreIn table.old entries.now }
        ensures grows { Grows table.old table.new }
        ensures of { OnOk result (IsOf (table_of width table.old) self.old → IsOf (table_of width table.new) self.new) }
        ensures adds { OnOk result (Adds (2 ^ width) table.old table.new self.old self.new
            (λ σ. total_in table.old σ entries.now * sum_of (2 ^ width) (said parts.now) σ)) }
    {
        multiple_sum::add_multiples(
            self.alloc,
            width,
            table,
            &mut self.coefficients,
            &mut self.numbers,
            entries,
            parts,
        )
    }

    /// Takes the whole sum, and leaves 0. The room stays.
    pub fn take(&mut self, terms: &Terms) -> Result<Poly, Memory>
        requires { IsOf terms.now self.old }
        ensures none { OnOk result (self.new ≡ []) }
        ensures of { IfOk result (IsOf terms.now) }
        ensures value { IfOk result (λ p. (σ : Assignment) →
            value_in terms.now p σ ≡ value_in terms.now self.old σ) }
    {
        let raw = take_out(self.alloc, &mut self.coefficients, &self.numbers)?;
        self.numbers.clear();
        let entries = addition::gather(self.alloc, terms.exponent(), raw)?;
        Ok(Poly::of(entries))
    }
}

/// Adds a term.
#[inline(always)]
pub(crate) fn add_term(
    width: u32,
    coefficients: &mut Coefficients,
    numbers: &mut Vec<u64>,
    term: &Term,
) -> Result<(), AllocError>
    requires width { IsWidth width }
    requires listed { AreListed coefficients.old numbers.old.items }
    ensures listed { AreListed coefficients.new numbers.new.items }
    ensures added { OnOk result
        (IsAdded (2 ^ width) coefficients.old coefficients.new (term.now ∷ [])) }
{
    let number = term.number();
    coefficients.reach(number)?;
    let before = coefficients.at(number);
    list_new(numbers, number, before)?;
    coefficients.put(number, coefficient::sum(width, before, term.coefficient()))
}

// Adds terms.
fn add_all(
    width: u32,
    coefficients: &mut Coefficients,
    numbers: &mut Vec<u64>,
    entries: &[Term],
) -> Result<(), AllocError>
    requires width { IsWidth width }
    requires listed { AreListed coefficients.old numbers.old.items }
    ensures listed { AreListed coefficients.new numbers.new.items }
    ensures added { OnOk result (IsAdded (2 ^ width) coefficients.old coefficients.new entries.now) }
{
    for entry in entries {
        add_term(width, coefficients, numbers, entry)?;
    }
    Ok(())
}

// Puts a number into the list, where it had the coefficient 0.
#[inline(always)]
fn list_new(numbers: &mut Vec<u64>, number: u64, before: u128) -> Result<(), AllocError>
    ensures kept { (n : ℕ) → Contains numbers.old.items n → Contains numbers.new.items n }
    ensures listed { OnOk result (before ≡ 0 → Contains numbers.new.items number) }
{
    if before == 0 {
        numbers.push(number)?;
    }
    Ok(())
}

// Takes out the terms of these numbers.
fn take_out(
    alloc: Global,
    coefficients: &mut Coefficients,
    numbers: &[u64],
) -> Result<Vec<Term>, AllocError>
    ensures less { IsLess coefficients.old coefficients.new }
    ensures taken { IfOk result (λ out. AreTaken coefficients.old coefficients.new [] out.items) }
    ensures gone { OnOk result ((k : ℕ) → k < length numbers.now →
        get_or coefficients.new (get_or numbers.now k 0) 0 ≡ 0) }
{
    let mut out = Vec::new(alloc);
    for number in numbers {
        take_one(coefficients, *number, &mut out)?;
    }
    Ok(out)
}

// Takes out a number's term, if it has one.
#[inline(always)]
fn take_one(
    coefficients: &mut Coefficients,
    number: u64,
    out: &mut Vec<Term>,
) -> Result<(), AllocError>
    ensures less { IsLess coefficients.old coefficients.new }
    ensures taken { OnOk result (AreTaken coefficients.old coefficients.new out.old.items out.new.items) }
    ensures gone { OnOk result (get_or coefficients.new number 0 ≡ 0) }
{
    let coefficient = coefficients.at(number);
    if coefficient != 0 {
        out.push(Term::new(number, coefficient))?;
        coefficients.clear(number);
    }
    Ok(())
}

// Puts 0 at these numbers.
fn clear_all(coefficients: &mut Coefficients, numbers: &[u64])
    ensures less { IsLess coefficients.old coefficients.new }
    ensures gone { (k : ℕ) → k < length numbers.now → get_or coefficients.new (get_or numbers.now k 0) 0 ≡ 0 }
{
    for number in numbers {
        clear_one(coefficients, *number);
    }
}

#[inline(always)]
fn clear_one(coefficients: &mut Coefficients, listed: u64)
    ensures less { IsLess coefficients.old coefficients.new }
    ensures gone { get_or coefficients.new listed 0 ≡ 0 }
{
    if coefficients.at(listed) != 0 {
        coefficients.clear(listed);
    }
}

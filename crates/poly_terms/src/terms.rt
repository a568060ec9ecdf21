// The table of monomials, and all that makes polynomials.
ghost use Rattle.std.specs.Prelude.{◌≡◌, ◌≢◌, ◌<◌, ◌↔◌, ◌+◌, ◌*◌, ◌%◌, ◌^◌, Any, Bool, false, IfOk, IfSome, IsNone, IsTrue, OnOk, Some, [], length, map, option_map, slice_get};
ghost use Rattle.graph_core.specs.Graph.Assignments.{Assignment, bit, listed};
ghost use Rattle.algebra_core.specs.NormalForm.{HasSize};
ghost use Rattle.algebra_core.specs.Polynomials.{value};
ghost use Rattle.mv_nums.specs.Residue.{IsWidth};
ghost use Rattle.poly_terms.specs.Tables.{ArePlacesOf, Extends, IsOf, assigned, given, modulus_in, monomials_in, quotient_value, replaced_value, said, value_in};
ghost use Rattle.poly_terms.specs.Monomials.{AreIn, total_in};

use crate::numbering::Numbering;
use crate::term::Term;
use crate::{
    Poly, PolySum, Variables, addition, carrying, evaluation, multiplication, parts, quotient,
    scaling, substitution, term,
};
use graph_core::Memory;
use std::alloc::Global;
use std::marker::Model;
use std::mem;

// A gate's axiom brings its variable and the product of its operands, and the lines of a certificate about one more.
const MONOMIALS_OF_GATE: usize = 3;

// The most parts whose room is kept: nearly all polynomials have fewer.
const MOST_KEPT: usize = 1 << 10;

/// The table of a modulus 2^w, w from 1 to 128, in which polynomials have their values.
#[derive(Drop)]
pub struct Terms {
    alloc: Global,
    exponent: u32,
    monomials: Numbering,
    /// room for parts, in which nothing is kept
    room: Vec<(u128, Variables)>,
}

impl Model for Terms {
    ghost use Rattle.mv_nums.specs.Residue.{IsWidth};
    ghost use Rattle.poly_terms.specs.Tables.{Table};

    ghost Value = { Table };

    ghost view = { λ t. record { exponent = t.exponent; monomials = t.monomials } };

    ghost invariant = { λ t. IsWidth t.exponent };
}

impl Terms {
    /// A table of its own for one modulus. It keeps the allocator.
    pub fn new(alloc: Global, w: u32) -> Terms
        requires { IsWidth w }
        ensures { result.exponent ≡ w }
    {
        Terms {
            alloc,
            exponent: w,
            monomials: Numbering::new(alloc),
            room: Vec::new(alloc),
        }
    }

    /// The same with room for the monomials that a certificate over so many gates most often has.
    pub fn for_gates(alloc: Global, w: u32, gates: usize) -> Result<Terms, Memory>
        requires { IsWidth w }
        ensures { IfOk result (λ t. t.exponent ≡ w) }
    {
        Terms::with_room(alloc, w, gates.saturating_mul(MONOMIALS_OF_GATE))
    }

    /// The same with room for so many monomials.
    pub fn with_room(alloc: Global, w: u32, count: usize) -> Result<Terms, Memory>
        requires { IsWidth w }
        ensures { IfOk result (λ t. t.exponent ≡ w) }
    {
        let monomials = Numbering::with_capacity(alloc, count)?;
        Ok(Terms {
            alloc,
            exponent: w,
            monomials,
            room: Vec::new(alloc),
        })
    }

    /// The exponent of the modulus, from 1 to 128.
    pub fn exponent(&self) -> u32
        ensures exponent { result ≡ self.now.exponent }
        ensures in_range { IsWidth result }
    {
        self.exponent
    }

    /// Lends room for the parts of one polynomial, which has none yet: `make_of` takes it back. To take it anew for each
    /// polynomial that is read would cost more than to read it.
    pub fn take_room(&mut self) -> Vec<(u128, Variables)>
        ensures none { result.items ≡ [] }
        ensures same { self.new ≡ self.old }
    {
        let mut room = mem::replace(&mut self.room, Vec::new(self.alloc));
        room.clear();
        room
    }

    /// The sum of coefficients of any size, each times a product of variables. Parts and variables come in any order
    /// and may be repeated, and variable 0 is the constant false.
    #[tactic(auto, using(crate::specs::Laws::extends_itself))]
    pub fn make(&mut self, parts: &[(u128, Vec<u32>)]) -> Result<Poly, Memory>
        ensures extends { Extends self.old self.new }
        ensures of { IfOk result (IsOf self.new) }
        ensures value { IfOk result (λ r. (σ : Assignment) →
            value_in self.new r σ ≡ value (modulus_in self.old) (given parts.now) σ) }
    {
        let parts = parts::copies(self.alloc, parts)?;
        let poly = self.make_of(parts)?;
        Ok(poly)
    }

    /// The same of parts that take no memory each.
    #[tactic(auto, using(crate::specs::Laws::extends_itself, crate::proofs::Made::extends_grown))]
    pub fn make_of(&mut self, parts: Vec<(u128, Variables)>) -> Result<Poly, Memory>
        ensures extends { Extends self.old self.new }
        ensures of { IfOk result (IsOf self.new) }
        ensures value { IfOk result (λ r. (σ : Assignment) →
            value_in self.new r σ ≡ value (modulus_in self.old) (said parts.items) σ) }
    {
        let raw = parts::entries_of(self.alloc, &mut self.monomials, &parts)?;
        keep(&mut self.room, parts);
        self.monomials.stand_once();
        let entries = addition::gather(self.alloc, self.exponent, raw)?;
        Ok(Poly::of(entries))
    }

    /// The sum of two polynomials.
    #[tactic(auto, using(crate::specs::Laws::extends_itself))]
    pub fn add(&mut self, p: &Poly, q: &Poly) -> Result<Poly, Memory>
        requires left { IsOf self.old p.now }
        requires right { IsOf self.old q.now }
        ensures extends { Extends self.old self.new }
        ensures of { IfOk result (IsOf self.new) }
        ensures value { IfOk result (λ r. (σ : Assignment) → value_in self.new r σ ≡
            (value_in self.old p.now σ + value_in self.old q.now σ) % modulus_in self.old) }
    {
        let entries = addition::add_sorted(self.alloc, self.exponent, p.entries(), q.entries())?;
        Ok(Poly::of(entries))
    }

    /// The product of two polynomials.
    #[tactic(auto, using(crate::specs::Laws::extends_itself, crate::proofs::Made::extends_grown))]
    pub fn mul(&mut self, p: &Poly, q: &Poly) -> Result<Poly, Memory>
        requires left { IsOf self.old p.now }
        requires right { IsOf self.old q.now }
        ensures extends { Extends self.old self.new }
        ensures of { IfOk result (IsOf self.new) }
        ensures value { IfOk result (λ r. (σ : Assignment) → value_in self.new r σ ≡
            (value_in self.old p.now σ * value_in self.old q.now σ) % modulus_in self.old) }
    {
        let raw = multiplication::products_of(
            self.alloc,
            &mut self.monomials,
            self.exponent,
            p.entries(),
            q.entries(),
        )?;
        let product = self.gathered(raw)?;
        Ok(product)
    }

    /// A polynomial times the sum of coefficients of any size, each times a product of variables.
    #[tactic(auto, using(crate::specs::Laws::extends_itself, crate::proofs::Made::extends_grown))]
    pub fn times(&mut self, p: &Poly, parts: &[(u128, Variables)]) -> Result<Poly, Memory>
        requires { IsOf self.old p.now }
        ensures extends { Extends self.old self.new }
        ensures of { IfOk result (IsOf self.new) }
        ensures value { IfOk result (λ r. (σ : Assignment) → value_in self.new r σ ≡
            (value_in self.old p.now σ * value (modulus_in self.old) (said parts.now) σ) % modulus_in self.old) }
    {
        let raw = parts::products_of(
            self.alloc,
            &mut self.monomials,
            self.exponent,
            p.entries(),
            parts,
        )?;
        let product = self.gathered(raw)?;
        Ok(product)
    }

    // The polynomial of terms in any order.
    fn gathered(&self, raw: Vec<Term>) -> Result<Poly, Memory>
        requires { AreIn self.now.monomials raw.items }
        ensures of { IfOk result (IsOf self.now) }
        ensures value { IfOk result (λ r. (σ : Assignment) →
            value_in self.now r σ ≡ total_in self.now.monomials σ raw.items % modulus_in self.now) }
    {
        self.monomials.stand_once();
        let entries = addition::gather(self.alloc, self.exponent, raw)?;
        Ok(Poly::of(entries))
    }

    /// A sum plus the product of two polynomials.
    #[tactic(auto, using(crate::specs::Laws::extends_on, crate::specs::Laws::stays))]
    pub fn combine(&mut self, sum: &Poly, p: &Poly, q: &Poly) -> Result<Poly, Memory>
        requires sum { IsOf self.old sum.now }
        requires left { IsOf self.old p.now }
        requires right { IsOf self.old q.now }
        ensures extends { Extends self.old self.new }
        ensures of { IfOk result (IsOf self.new) }
        ensures value { IfOk result (λ r. (σ : Assignment) →
            let product = value_in self.old p.now σ * value_in self.old q.now σ in
            value_in self.new r σ ≡ (value_in self.old sum.now σ + product) % modulus_in self.old) }
    {
        let product = self.mul(p, q)?;
        self.add(sum, &product)
    }

    /// A polynomial in which a variable is replaced by another polynomial, which may have it too.
    #[tactic(auto, using(crate::specs::Laws::extends_itself, crate::proofs::Made::numbers_of), unfolding(crate::specs::Tables::ArePlacesOf))]
    pub fn substitute(&mut self, p: &Poly, v: u32, q: &Poly) -> Result<Poly, Memory>
        requires left { IsOf self.old p.now }
        requires right { IsOf self.old q.now }
        requires variable { 0 < v }
        ensures extends { Extends self.old self.new }
        ensures of { IfOk result (IsOf self.new) }
        ensures value { IfOk result (λ r. (σ : Assignment) →
            value_in self.new r σ ≡ replaced_value self.old p.now v (value_in self.old q.now σ) σ) }

        // Where the other polynomial is 0 or 1, this is a change of the assignment.
        ensures bit { IfOk result (λ r. (σ : Assignment) (b : Bool) → value_in self.old q.now σ ≡ bit b →
            value_in self.new r σ ≡ value_in self.old p.now (assigned σ v b)) }
    {
        let places = substitution::places_of(self.alloc, &self.monomials, p.entries(), v)?;
        let replaced = self.substitute_at(p, v, q, &places)?;
        Ok(replaced)
    }

    /// The same where the numbers of the terms that have the variable are known: `places` has them, rising.
    #[tactic(auto, using(crate::specs::Laws::extends_itself, crate::proofs::Made::extends_grown))]
    pub(crate) fn substitute_at(
        &mut self,
        p: &Poly,
        v: u32,
        q: &Poly,
        places: &[u64],
    ) -> Result<Poly, Memory>
        requires left { IsOf self.old p.now }
        requires right { IsOf self.old q.now }
        requires variable { 0 < v }
        requires places { ArePlacesOf self.old p.now v places.now }
        ensures extends { Extends self.old self.new }
        ensures of { IfOk result (IsOf self.new) }
        ensures value { IfOk result (λ r. (σ : Assignment) →
            value_in self.new r σ ≡ replaced_value self.old p.now v (value_in self.old q.now σ) σ) }
        ensures bit { IfOk result (λ r. (σ : Assignment) (b : Bool) → value_in self.old q.now σ ≡ bit b →
            value_in self.new r σ ≡ value_in self.old p.now (assigned σ v b)) }
    {
        let kept = substitution::entries_free_of(
            self.alloc,
            &self.monomials,
            p.entries(),
            v,
            places,
        )?;
        let raw = substitution::replacements(
            self.alloc,
            &mut self.monomials,
            self.exponent,
            p.entries(),
            v,
            q.entries(),
            places,
        )?;
        self.monomials.stand_once();
        let gathered = addition::gather(self.alloc, self.exponent, raw)?;
        let entries = addition::add_sorted(self.alloc, self.exponent, &kept, &gathered)?;
        Ok(Poly::of(entries))
    }

    /// What stands beside a variable: the polynomial is the variable times that, and what it is where the variable is
    /// false.
    #[tactic(auto, using(crate::specs::Laws::extends_itself, crate::proofs::Made::numbers_of), unfolding(crate::specs::Tables::ArePlacesOf))]
    pub fn quotient(&mut self, p: &Poly, v: u32) -> Result<Poly, Memory>
        requires of { IsOf self.old p.now }
        requires variable { 0 < v }
        ensures extends { Extends self.old self.new }
        ensures of { IfOk result (IsOf self.new) }
        ensures value { IfOk result (λ r. (σ : Assignment) →
            value_in self.new r σ ≡ quotient_value self.old p.now v σ) }
    {
        let places = substitution::places_of(self.alloc, &self.monomials, p.entries(), v)?;
        let quotient = self.quotient_at(p, v, &places)?;
        Ok(quotient)
    }

    // The same where the numbers of the terms that have the variable are known: `places` has them, rising.
    #[tactic(auto, using(crate::specs::Laws::extends_itself, crate::proofs::Made::extends_grown))]
    fn quotient_at(&mut self, p: &Poly, v: u32, places: &[u64]) -> Result<Poly, Memory>
        requires of { IsOf self.old p.now }
        requires variable { 0 < v }
        requires places { ArePlacesOf self.old p.now v places.now }
        ensures extends { Extends self.old self.new }
        ensures of { IfOk result (IsOf self.new) }
        ensures value { IfOk result (λ r. (σ : Assignment) →
            value_in self.new r σ ≡ quotient_value self.old p.now v σ) }
    {
        let raw = quotient::quotients(self.alloc, &mut self.monomials, p.entries(), v, places)?;
        let quotient = self.gathered(raw)?;
        Ok(quotient)
    }

    /// Adds the product of two polynomials to a sum. The table takes its monomials, also those that leave the sum
    /// again.
    #[tactic(auto, using(crate::specs::Laws::extends_itself, crate::proofs::Made::extends_grown))]
    pub fn add_product(&mut self, sum: &mut PolySum, p: &Poly, q: &Poly) -> Result<(), Memory>
        requires sum { IsOf self.old sum.old }
        requires left { IsOf self.old p.now }
        requires right { IsOf self.old q.now }
        ensures extends { Extends self.old self.new }
        ensures of { OnOk result (IsOf self.new sum.new) }
        ensures value { OnOk result ((σ : Assignment) → value_in self.new sum.new σ ≡
            (value_in self.old sum.old σ + value_in self.old p.now σ * value_in self.old q.now σ) % modulus_in self.old) }
    {
        sum.add_products(self.exponent, &mut self.monomials, p.entries(), q.entries())?;
        Ok(())
    }

    /// Adds a polynomial times parts, as `times` has them, to a sum. The table takes its monomials likewise.
    #[tactic(auto, using(crate::specs::Laws::extends_itself, crate::proofs::Made::extends_grown))]
    pub fn add_times(
        &mut self,
        sum: &mut PolySum,
        p: &Poly,
        parts: &[(u128, Variables)],
    ) -> Result<(), Memory>
        requires sum { IsOf self.old sum.old }
        requires poly { IsOf self.old p.now }
        ensures extends { Extends self.old self.new }
        ensures of { OnOk result (IsOf self.new sum.new) }
        ensures value { OnOk result ((σ : Assignment) → value_in self.new sum.new σ ≡
            (value_in self.old sum.old σ + value_in self.old p.now σ * value (modulus_in self.old) (said parts.now) σ)
            % modulus_in self.old) }
    {
        sum.add_multiples(self.exponent, &mut self.monomials, p.entries(), parts)?;
        Ok(())
    }

    /// A polynomial times a number.
    pub fn multiple(&self, p: &Poly, by: u128) -> Result<Poly, Memory>
        requires { IsOf self.now p.now }
        ensures of { IfOk result (IsOf self.now) }
        ensures value { IfOk result (λ r. (σ : Assignment) →
            value_in self.now r σ ≡ (by * value_in self.now p.now σ) % modulus_in self.now) }
    {
        let raw = scaling::multiples(self.alloc, self.exponent, p.entries(), by)?;
        let product = self.gathered(raw)?;
        Ok(product)
    }

    /// A polynomial of the same monomials of which 2^k times is this one, with coefficients as near to 0 as can be.
    /// None where one of this polynomial's isn't a multiple of 2^k.
    pub fn divided(&self, p: &Poly, k: u32) -> Result<Option<Poly>, Memory>
        requires of { IsOf self.now p.now }
        requires power { k < 128 }
        ensures of { IfOk result (λ r. IfSome r (IsOf self.now)) }
        ensures value { IfOk result (λ r. IfSome r (λ q. (σ : Assignment) →
            (2 ^ k * value_in self.now q σ) % modulus_in self.now ≡ value_in self.now p.now σ)) }
        ensures variables { IfOk result (λ r. IfSome r (λ q.
            map (λ x. x.variables) (monomials_in self.now q) ≡ map (λ x. x.variables) (monomials_in self.now p.now))) }
        ensures none { IfOk result (λ r. IsNone r ↔
            Any (λ x. x.coefficient % 2 ^ k ≢ 0) (monomials_in self.now p.now)) }
    {
        let divided = scaling::quotients(self.alloc, self.exponent, p.entries(), k)?;
        match divided {
            None => Ok(None),
            Some(entries) => Ok(Some(Poly::of(entries))),
        }
    }

    /// A polynomial of another table with the same modulus, made anew in this one.
    #[tactic(auto, using(crate::specs::Laws::extends_itself, crate::proofs::Made::extends_grown))]
    pub fn bring(&mut self, from: &Terms, p: &Poly) -> Result<Poly, Memory>
        requires exponent { from.now.exponent ≡ self.old.exponent }
        requires of { IsOf from.now p.now }
        ensures extends { Extends self.old self.new }
        ensures of { IfOk result (IsOf self.new) }
        ensures value { IfOk result (λ r. (σ : Assignment) →
            value_in self.new r σ ≡ value_in from.now p.now σ) }
    {
        let raw = carrying::carry_all(
            self.alloc,
            from.numbering(),
            p.entries(),
            &mut self.monomials,
        )?;
        self.monomials.stand_once();
        let entries = addition::gather(self.alloc, self.exponent, raw)?;
        Ok(Poly::of(entries))
    }

    /// How many monomials the table has, those of polynomials that are gone among them.
    pub fn count(&self) -> u64
        ensures { result ≡ length self.now.monomials }
    {
        self.monomials.len()
    }

    // what numbers its monomials
    pub(crate) fn numbering(&self) -> &Numbering
        ensures { result.now ≡ self.now.monomials }
    {
        &self.monomials
    }

    /// The value modulo 2^w where variable v is true exactly if the list has true at place v: past its end all are
    /// false.
    pub fn value_at(&self, p: &Poly, values: &[bool]) -> u128
        requires { IsOf self.now p.now }
        ensures { result ≡ value_in self.now p.now (listed values.now) }
    {
        evaluation::value_of(&self.monomials, self.exponent, p.entries(), values)
    }

    /// Whether two polynomials have the same value at every assignment. They may be of different ages.
    pub fn equals(&self, p: &Poly, q: &Poly) -> bool
        requires left { IsOf self.now p.now }
        requires right { IsOf self.now q.now }
        ensures { IsTrue result ↔
            ((σ : Assignment) → value_in self.now p.now σ ≡ value_in self.now q.now σ) }
    {
        term::are_same(p.entries(), q.entries())
    }

    /// How many monomials the polynomial has in its normal form. The empty monomial counts.
    #[tactic(auto, unfolding(crate::specs::Tables::monomials_in))]
    pub fn size(&self, p: &Poly) -> u64
        requires { IsOf self.now p.now }
        ensures size { HasSize (modulus_in self.now) (value_in self.now p.now) result }
        ensures monomials { result ≡ length (monomials_in self.now p.now) }
    {
        p.entries().len() as u64
    }

    /// The coefficient of a monomial, by its place from 0 in the polynomial's own order. It isn't 0.
    #[tactic(auto, unfolding(crate::specs::Tables::monomials_in))]
    pub fn coefficient(&self, p: &Poly, i: u64) -> u128
        requires { i < length (monomials_in self.now p.now) }
        ensures { let monomial = slice_get (monomials_in self.now p.now) i in
            option_map (λ m. m.coefficient) monomial ≡ Some result }
    {
        let entry = &p.entries()[i as usize];
        entry.coefficient()
    }

    /// The variables of a monomial, by its place from 0. They rise, and none is 0.
    #[tactic(auto, unfolding(crate::specs::Tables::monomials_in))]
    pub fn vars<'a>(&'a self, p: &'a Poly, i: u64) -> &'a [u32]
        requires of { IsOf self.now p.now }
        requires place { i < length (monomials_in self.now p.now) }
        ensures { let monomial = slice_get (monomials_in self.entry.now p.entry.now) i in
            option_map (λ m. m.variables) monomial ≡ Some result.now }
    {
        let entry = &p.entries()[i as usize];
        self.monomials.variables(entry.number())
    }
}

// Keeps the room of parts that were made a polynomial, unless it is great.
fn keep(room: &mut Vec<(u128, Variables)>, parts: Vec<(u128, Variables)>) {
    if parts.capacity() <= MOST_KEPT {
        *room = parts;
    }
}

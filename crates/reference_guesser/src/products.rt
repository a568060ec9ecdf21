// The products of the operands' bits, by column.
use crate::booth::{last, put_multiples};
use crate::gates::Gates;
use graph_core::{Lit, Memory, Operands, Sign};
use std::alloc::Global;

/// How the products are made.
#[derive(Clone, Copy, Debug, PartialEq, Eq)]
pub(crate) enum Form {
    /// a product of two bits each
    Simple,
    /// multiples of a by bits of b, each up to the last column with its sign
    Extended,
    /// the same, but that by the highest bit of b is complemented as a whole, and a word is 1
    Complemented,
    /// multiples of a by digits of two bits of b
    Booth,
}

/// What is to be added in a column, without what is 0: products, and after them constants and an addend's bit.
#[derive(Drop)]
pub(crate) struct Column {
    pub(crate) products: Vec<Lit>,
    pub(crate) others: Vec<Lit>,
}

/// What is to be added, column by column.
#[derive(Drop)]
pub(crate) struct Products {
    pub(crate) columns: Vec<Column>,
}

impl Products {
    /// Those of the operands in a form, and the addend's bits, in so many columns.
    pub(crate) fn of(
        alloc: Global,
        gates: &mut Gates<'_>,
        operands: &Operands,
        count: u32,
        form: Form,
    ) -> Result<Products, Memory> {
        let mut products = Products::nothing(alloc, count)?;
        match form {
            Form::Simple => put_simple(gates, operands, &mut products)?,
            Form::Extended => put_extended(gates, operands, &mut products, count)?,
            Form::Complemented => put_complemented(gates, operands, &mut products, count)?,
            Form::Booth => put_multiples(alloc, gates, operands, &mut products)?,
        }
        products.put_addend(operands.c_literals())?;
        Ok(products)
    }

    fn nothing(alloc: Global, count: u32) -> Result<Products, Memory> {
        let mut columns = Vec::new(alloc);
        for _column in 0..count {
            columns.push(Column {
                products: Vec::new(alloc),
                others: Vec::new(alloc),
            })?;
        }
        Ok(Products { columns })
    }

    /// One product more, if there is such a column.
    pub(crate) fn put(&mut self, column: usize, lit: Lit) -> Result<(), Memory> {
        if lit.0 != 0 {
            if let Some(column) = self.columns.get_mut(column) {
                column.products.push(lit)?;
            }
        }
        Ok(())
    }

    /// One literal more that is no product.
    pub(crate) fn put_other(&mut self, column: usize, lit: Lit) -> Result<(), Memory> {
        if let Some(column) = self.columns.get_mut(column) {
            column.others.push(lit)?;
        }
        Ok(())
    }

    fn put_addend(&mut self, lits: &[Lit]) -> Result<(), Memory> {
        for (column, lit) in lits.iter().enumerate() {
            self.put_other(column, *lit)?;
        }
        Ok(())
    }
}

// The products of two bits each. Where operands are signed, those of one highest bit count negative: the negation of
// each is put, and what these are too many is put as constants.
fn put_simple(
    gates: &mut Gates<'_>,
    operands: &Operands,
    products: &mut Products,
) -> Result<(), Memory> {
    let (a, b) = (operands.a_literals(), operands.b_literals());
    let is_signed = operands.sign() == Sign::Signed;
    for (i, x) in a.iter().enumerate() {
        for (j, y) in b.iter().enumerate() {
            let both = gates.and(*x, *y)?;
            let is_negative = is_signed
                && (i.wrapping_add(1) == a.len()) != (j.wrapping_add(1) == b.len());
            let product = if is_negative { both.not() } else { both };
            products.put(i.wrapping_add(j), product)?;
        }
    }
    if is_signed {
        put_constants(products, a.len(), b.len())?;
    }
    Ok(())
}

// The constants beside products of signed operands: 2^(n - 1) + 2^(m - 1) + 2^(n + m - 1).
fn put_constants(products: &mut Products, a: usize, b: usize) -> Result<(), Memory> {
    if a == b {
        products.put_other(a, Lit(1))?;
    } else {
        products.put_other(a.wrapping_sub(1), Lit(1))?;
        products.put_other(b.wrapping_sub(1), Lit(1))?;
    }
    products.put_other(a.wrapping_add(b).wrapping_sub(1), Lit(1))
}

// The multiples of a signed operand by bits of another: that by the highest bit is subtracted, as
// a multiple of a's complement, and the bit itself.
fn put_extended(
    gates: &mut Gates<'_>,
    operands: &Operands,
    products: &mut Products,
    count: u32,
) -> Result<(), Memory> {
    let (a, b) = (operands.a_literals(), operands.b_literals());
    for (low, y) in b.iter().enumerate() {
        let is_highest = low.wrapping_add(1) == b.len();
        for column in low..count as usize {
            let x = extended_bit(a, column.wrapping_sub(low));
            let product = gates.and(if is_highest { x.not() } else { x }, *y)?;
            products.put(column, product)?;
        }
    }
    products.put(b.len().saturating_sub(1), last(b))
}

// The multiples of a signed operand by bits of another: that by the highest bit is subtracted, as its complement and 1.
fn put_complemented(
    gates: &mut Gates<'_>,
    operands: &Operands,
    products: &mut Products,
    count: u32,
) -> Result<(), Memory> {
    let (a, b) = (operands.a_literals(), operands.b_literals());
    for (low, y) in b.iter().enumerate() {
        let is_highest = low.wrapping_add(1) == b.len();
        for column in 0..low {
            if is_highest {
                products.put(column, Lit(1))?;
            }
        }
        for column in low..count as usize {
            let product = gates.and(extended_bit(a, column.wrapping_sub(low)), *y)?;
            products.put(column, if is_highest { product.not() } else { product })?;
        }
    }
    products.put(0, Lit(1))
}

// A bit of a signed operand, whose last one is repeated.
fn extended_bit(a: &[Lit], place: usize) -> Lit {
    match a.get(place) {
        Some(x) => *x,
        None => last(a),
    }
}

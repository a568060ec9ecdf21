// The rows of a graph's variables.
use crate::patterns::patterns;
use crate::row::Row;
use graph_core::{Graph, Lit, Memory, Numbers, Operands};
use std::alloc::Global;

// One of the words that the inputs are.
#[derive(Clone, Copy)]
enum Word {
    A,
    B,
    C,
}

/// The rows of the constant, the inputs and the gates, by variable.
pub(crate) fn values(
    alloc: Global,
    graph: &Graph,
    operands: &Operands,
) -> Result<Vec<Row>, Memory> {
    let patterns = patterns(alloc, operands)?;
    let mut rows = vec![in alloc; Row::zero(); graph.max() as usize + 1]?;
    set_word(&mut rows, operands.a_literals(), &patterns, Word::A);
    set_word(&mut rows, operands.b_literals(), &patterns, Word::B);
    set_word(&mut rows, operands.c_literals(), &patterns, Word::C);
    for gate in graph.schedule() {
        let row = value(&rows, gate.left).and(&value(&rows, gate.right));
        if let Some(place) = rows.get_mut(gate.v as usize) {
            *place = row;
        }
    }
    Ok(rows)
}

/// The row of a literal.
pub(crate) fn value(rows: &[Row], lit: Lit) -> Row {
    match rows.get(lit.var() as usize) {
        Some(row) => row.not_if(lit.negated()),
        None => Row::zero(),
    }
}

// The rows of a word's bits.
fn set_word(rows: &mut Vec<Row>, lits: &[Lit], patterns: &[Numbers], word: Word) {
    for (i, lit) in lits.iter().enumerate() {
        if let Some(row) = rows.get_mut(lit.var() as usize) {
            *row = bit_of(patterns, i, word);
        }
    }
}

// The row of a bit of a word.
fn bit_of(patterns: &[Numbers], place: usize, word: Word) -> Row {
    let mut row = Row::zero();
    for (pattern, numbers) in patterns.iter().enumerate() {
        if has_bit(numbers, word, place) {
            row.set(pattern);
        }
    }
    row
}

// Whether a bit of a word is one.
fn has_bit(numbers: &Numbers, word: Word, place: usize) -> bool {
    match word {
        Word::A => place < 64 && (numbers.a >> place as u32) % 2 == 1,
        Word::B => place < 64 && (numbers.b >> place as u32) % 2 == 1,
        Word::C => place < 128 && (numbers.c >> place as u32) % 2 == 1,
    }
}

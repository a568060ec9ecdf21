// Goals that are seen to fail on some inputs, without a solver.
ghost use Rattle.std.specs.Prelude.{◌<◌, length, IfOk, IfSome};

use clause_core::{Clause, ClauseList};
use graph_core::{Gate, Lit, Memory};
use ripple_graft::Extended;
use stage_guesser::Draws;
use std::alloc::Global;

/// A goal that fails on one of 64 inputs, all ones and drawn ones, by its place, and the values of the inputs there as
/// literals. None where each holds on all of them. Which inputs are tried is a heuristic.
pub(crate) fn failing_goal(
    alloc: Global,
    extended: &Extended<'_>,
    goals: &ClauseList,
) -> Result<Option<(usize, Vec<i32>)>, Memory>
    ensures { IfOk result (λ found. IfSome found (λ seen. seen.0 < length goals.now)) }
{
    let words = words_of(alloc, extended)?;
    for place in 0..goals.len() {
        let failing = !word_of_clause(&words, goals.get(place));
        if failing != 0 {
            let inputs = inputs_at(alloc, extended, &words, lowest(failing))?;
            return Ok(Some((place, inputs)));
        }
    }
    Ok(None)
}

// By variable its values on the inputs, one a bit.
fn words_of(alloc: Global, extended: &Extended<'_>) -> Result<Vec<u64>, Memory> {
    let mut words = vec![in alloc; 0u64; extended.max() as usize + 1]?;
    let mut draws = Draws::new();
    for input in extended.graph().input_literals() {
        set(&mut words, input.var(), draws.next() | 1);
    }
    for gate in extended.graph().schedule() {
        evaluate(&mut words, gate);
    }
    // an added gate stands after those that it reads
    for gate in extended.gates() {
        if gate.v > extended.graph().max() {
            evaluate(&mut words, gate);
        }
    }
    Ok(words)
}

fn evaluate(words: &mut [u64], gate: &Gate) {
    let word = word_of(words, gate.left) & word_of(words, gate.right);
    set(words, gate.v, word);
}

fn set(words: &mut [u64], variable: u32, word: u64) {
    if let Some(entry) = words.get_mut(variable as usize) {
        *entry = word;
    }
}

fn word_of(words: &[u64], lit: Lit) -> u64 {
    let word = word_at(words, lit.var());
    if lit.negated() { !word } else { word }
}

fn word_at(words: &[u64], variable: u32) -> u64 {
    match words.get(variable as usize) {
        Some(word) => *word,
        None => 0,
    }
}

fn word_of_clause(words: &[u64], clause: &Clause) -> u64 {
    let mut some = 0;
    for &lit in clause.lits() {
        let word = word_at(words, lit.unsigned_abs());
        some |= if lit < 0 { !word } else { word };
    }
    some
}

// The lowest one bit alone.
fn lowest(word: u64) -> u64 {
    word & (!word).wrapping_add(1)
}

// The values of the inputs at a bit.
fn inputs_at(
    alloc: Global,
    extended: &Extended<'_>,
    words: &[u64],
    bit: u64,
) -> Result<Vec<i32>, Memory> {
    let mut lits = Vec::new(alloc);
    for input in extended.graph().input_literals() {
        let lit = input.var() as i32;
        if word_at(words, input.var()) & bit == 0 {
            lits.push(lit.wrapping_neg())?;
        } else {
            lits.push(lit)?;
        }
    }
    Ok(lits)
}

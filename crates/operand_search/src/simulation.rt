// The values of all variables with 64 values of the inputs at a time.
ghost use Rattle.std.specs.Prelude.{◌≡◌, ◌≢◌, ℕ, ◌+◌, ◌<◌, ◌≤◌, length, All, AllPairs, false, ◌&&◌};
ghost use Rattle.graph_core.specs.Graph.{of_inputs};
ghost use Rattle.graph_core.specs.Graph.Assignments.{listed, literal, word};
ghost use Rattle.graph_core.specs.Graph.Literals.{variable_of};
ghost use Rattle.operand_search.specs.Lanes.{AreWords, lane, truth};

use crate::lanes::has_bit;
use graph_core::{Gate, Graph, Lit};

/// Writes each variable's word with these words of the inputs.
pub(crate) fn words_into(graph: &Graph, inputs: &[u64], words: &mut [u64])
    requires as_many { length inputs.now ≡ length graph.now.inputs }
    requires room { length words.old ≡ graph.now.max + 1 }
    ensures { AreWords graph.now inputs.now words.new }
{
    inputs_into(graph.input_literals(), inputs, words);
    for gate in graph.schedule() {
        words[gate.v as usize] = gate_word(words, *gate);
    }
}

/// The number of the literals in a lane: the sum of 2^k over the literals k that are true there.
pub(crate) fn number_in(words: &[u64], lits: &[Lit], place: usize) -> u128
    requires within { place < 64 }
    requires in_range { All (λ l. variable_of l < length words.now) lits.now }
    requires narrow { length lits.now ≤ 128 }
    ensures { result ≡ word (listed (lane place words.now)) lits.now }
{
    let mut number = 0;
    for k in (0..lits.len()).rev() {
        number = 2 * number + u128::from(is_true_in(words, lits[k], place));
    }
    number
}

// The inputs' words, and 0 everywhere else.
fn inputs_into(lits: &[Lit], inputs: &[u64], words: &mut [u64])
    requires as_many { length inputs.now ≡ length lits.now }
    requires in_range { All (λ l. variable_of l < length words.old) lits.now }
    requires apart { AllPairs (λ l m. variable_of l ≢ variable_of m) lits.now }
    ensures { (i v : ℕ) → listed (lane i words.new) v ≡ of_inputs lits.now (lane i inputs.now) v }
{
    words.fill(0);
    for (k, lit) in lits.iter().enumerate() {
        words[lit.var() as usize] = inputs[k];
    }
}

// The AND of a gate's operands in each lane, where place 0 has the values of the constant.
fn gate_word(words: &[u64], gate: Gate) -> u64
    requires left { variable_of gate.left < length words.now }
    requires right { variable_of gate.right < length words.now }
    requires constant { (i : ℕ) → i < 64 → listed (lane i words.now) 0 ≡ false }
    ensures { (i : ℕ) → i < 64 → truth i result ≡
        (literal (listed (lane i words.now)) gate.left && literal (listed (lane i words.now)) gate.right) }
{
    word_of(words, gate.left) & word_of(words, gate.right)
}

// The word of a literal, where place 0 has the values of the constant.
fn word_of(words: &[u64], lit: Lit) -> u64
    requires in_range { variable_of lit < length words.now }
    requires constant { (i : ℕ) → i < 64 → listed (lane i words.now) 0 ≡ false }
    ensures { (i : ℕ) → i < 64 → truth i result ≡ literal (listed (lane i words.now)) lit }
{
    let word = words[lit.var() as usize];
    if lit.negated() { !word } else { word }
}

// The value of a literal in a lane; that of the constant doesn't hang on place 0.
fn is_true_in(words: &[u64], lit: Lit, place: usize) -> bool
    requires within { place < 64 }
    requires in_range { variable_of lit < length words.now }
    ensures { result ≡ literal (listed (lane place words.now)) lit }
{
    let v = lit.var();
    (v != 0 && has_bit(words[v as usize], place)) != lit.negated()
}

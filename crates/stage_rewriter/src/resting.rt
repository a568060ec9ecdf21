// Goals that unit propagation over the clauses of gates leaves open, without a clause being made.
ghost use Rattle.std.specs.Prelude.{◌≡◌, ◌↔◌, neg_ℤ, IfOk, IsTrue};
ghost use Rattle.std.specs.List.{All, Any};
ghost use Rattle.clause_core.specs.GateClauses.{gate_clauses};
ghost use Rattle.clause_core.specs.UnitPropagation.{IsRup};
ghost use Rattle.stage_rewriter.specs.Resting.{IsAtRest, IsGateAtRest, IsOpposed, IsOther, IsPossible, RestsAt, is_marked, literal_number, mark_at};

use clause_core::Clause;
use graph_core::{Gate, Lit, Memory};
use ripple_graft::Extended;
use std::alloc::Global;

// So many passes go over the gates, forward and backward in turn, until nothing changes. Where that isn't enough,
// nothing is seen.
const ROUNDS: u32 = 16;

// There are fewer variables.
const VARIABLES: u32 = 2147483648;

/// Whether it is seen that a goal doesn't follow from the gates' clauses by unit propagation: its literals are false,
/// and then no clause is false or forces a literal that doesn't stand already.
pub(crate) fn stays_open(
    alloc: Global,
    extended: &Extended<'_>,
    goal: &Clause,
) -> Result<bool, Memory>
    ensures { IfOk result (λ seen. IsTrue seen → IsRup (gate_clauses extended.now.gates) goal.now → ⊥) }
{
    let mut marks = Vec::from_elem(alloc, false, 2 * (extended.max() as usize + 1))?;
    let gates = extended.gates();
    begin(&mut marks, goal);
    spread(&mut marks, gates);
    Ok(leave_open(&marks, gates, goal))
}

// Whether marks show that a goal doesn't follow.
fn leave_open(marks: &[bool], gates: &[Gate], goal: &Clause) -> bool
    ensures { IsTrue result → IsRup (gate_clauses gates.now) goal.now → ⊥ }
{
    if !is_marked(marks, Lit(1)) {
        return false;
    }
    if !are_opposed(marks, goal.lits()) {
        return false;
    }
    gates_rest(marks, gates)
}

// Marks the constant true, and the negations of a goal's literals.
fn begin(marks: &mut [bool], goal: &Clause) {
    mark(marks, 1);
    for &lit in goal.lits() {
        mark(marks, number_of_negation(lit));
    }
}

// Marks what propagation over the gates forces. No answer depends on what is marked.
fn spread(marks: &mut [bool], gates: &[Gate]) {
    for _round in 0..ROUNDS {
        let mut changed = false;
        for i in 0..gates.len() {
            changed |= force(marks, &gates[i]);
        }
        for i in 0..gates.len() {
            changed |= force(marks, &gates[gates.len() - 1 - i]);
        }
        if !changed {
            return;
        }
    }
}

// Marks what a gate's clauses force; whether that is something new.
fn force(marks: &mut [bool], gate: &Gate) -> bool {
    let (own, left, right) = (
        2 * gate.v as usize,
        gate.left.0 as usize,
        gate.right.0 as usize,
    );
    let (no_left, no_right) = (opposite(left), opposite(right));
    let mut changed = false;
    if mark_at(marks, own) {
        changed |= mark(marks, left);
        changed |= mark(marks, right);
    }
    if mark_at(marks, no_left) || mark_at(marks, no_right) {
        changed |= mark(marks, own + 1);
    }
    if mark_at(marks, left) && mark_at(marks, right) {
        changed |= mark(marks, own);
    }
    if mark_at(marks, own + 1) && mark_at(marks, left) {
        changed |= mark(marks, no_right);
    }
    if mark_at(marks, own + 1) && mark_at(marks, right) {
        changed |= mark(marks, no_left);
    }
    changed
}

// Marks a literal by its number; whether that is new.
fn mark(marks: &mut [bool], number: usize) -> bool {
    if number >= marks.len() || marks[number] {
        return false;
    }
    marks[number] = true;
    true
}

// The number of a literal's negation.
fn opposite(number: usize) -> usize {
    number ^ 1
}

// Whether each literal is false, and isn't marked itself.
fn are_opposed(marks: &[bool], lits: &[i32]) -> bool
    ensures { IsTrue result ↔ All (IsOpposed marks.now) lits.now }
{
    lits.iter().all(|&lit| is_opposed(marks, lit))
}

fn is_opposed(marks: &[bool], lit: i32) -> bool
    ensures { IsTrue result ↔ IsOpposed marks.now lit }
{
    mark_at(marks, number_of_negation(lit)) && !mark_at(marks, number_of(lit))
}

// Whether no clause of the gates is false or forces a literal that isn't marked.
fn gates_rest(marks: &[bool], gates: &[Gate]) -> bool
    ensures { IsTrue result → All (IsGateAtRest marks.now) gates.now }
{
    for gate in gates {
        if !gate_rests(marks, gate) {
            return false;
        }
    }
    true
}

fn gate_rests(marks: &[bool], gate: &Gate) -> bool
    ensures { IsTrue result ↔ IsGateAtRest marks.now gate.now }
{
    if gate.v >= VARIABLES {
        return false;
    }
    let own = Lit(2 * gate.v);
    let no_own = Lit(2 * gate.v + 1);
    if !rests(marks, &[no_own, gate.left]) {
        return false;
    }
    if !rests(marks, &[no_own, gate.right]) {
        return false;
    }
    rests(marks, &[own, gate.left.not(), gate.right.not()])
}

// Whether one of the literals is possible, and is marked or not the only one.
fn rests(marks: &[bool], lits: &[Lit]) -> bool
    ensures { IsTrue result ↔ IsAtRest marks.now lits.now }
{
    lits.iter().any(|&lit| rests_at(marks, lits, lit))
}

fn rests_at(marks: &[bool], lits: &[Lit], lit: Lit) -> bool
    ensures { IsTrue result ↔ RestsAt marks.now lits.now lit }
{
    is_possible(marks, lit) && (is_marked(marks, lit) || has_other(marks, lits, lit))
}

// Whether another of the literals is possible.
fn has_other(marks: &[bool], lits: &[Lit], lit: Lit) -> bool
    ensures { IsTrue result ↔ Any (IsOther marks.now lit) lits.now }
{
    lits.iter().any(|&other| is_other(marks, lit, other))
}

fn is_other(marks: &[bool], lit: Lit, other: Lit) -> bool
    ensures { IsTrue result ↔ IsOther marks.now lit other }
{
    other != lit && is_possible(marks, other)
}

// Whether the negation isn't marked.
fn is_possible(marks: &[bool], lit: Lit) -> bool
    ensures { IsTrue result ↔ IsPossible marks.now lit }
{
    !is_marked(marks, lit.not())
}

fn is_marked(marks: &[bool], lit: Lit) -> bool
    ensures { result ≡ is_marked marks.now lit }
{
    mark_at(marks, lit.0 as usize)
}

fn mark_at(marks: &[bool], number: usize) -> bool
    ensures { result ≡ mark_at marks.now number }
{
    number < marks.len() && marks[number]
}

// The number of a signed variable's literal.
fn number_of(lit: i32) -> usize
    ensures { result ≡ literal_number lit }
{
    2 * lit.unsigned_abs() as usize + usize::from(lit < 0)
}

fn number_of_negation(lit: i32) -> usize
    ensures { result ≡ literal_number (neg_ℤ lit) }
{
    2 * lit.unsigned_abs() as usize + usize::from(lit > 0)
}

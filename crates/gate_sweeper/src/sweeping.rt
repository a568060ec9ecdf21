// Equal gates, from the inputs upward.
ghost use Rattle.std.specs.Prelude.{ℕ, List, OnOk};
ghost use Rattle.clause_core.specs.Clause.{Clause};
ghost use Rattle.goal_refuter.specs.Beginnings.{IsBegunAlike, StaysBegunAlike};

use crate::levels::by_level;
use crate::patterns::Patterns;
use crate::swept::Swept;
use crate::turns::in_turn;
use crate::twins::Twins;
use cdcl_solver::{Log, Solver};
use goal_refuter::{forget, show_equal};
use graph_core::{Gate, Lit, Memory};
use std::alloc::Global;

// Within how many lemmas an implication is shown.
const FEW: u64 = 100;

/// Shows gates equal to models, level by level. What is shown are lemmas.
pub(crate) fn sweep(
    alloc: Global,
    swept: &Swept<'_>,
    conflicts: u64,
    solver: &mut Solver,
    log: &mut Log,
) -> Result<(), Memory>
    requires { (max : ℕ) × (given : List Clause) × IsBegunAlike max given conflicts solver.old log.old }
    ensures { OnOk result (StaysBegunAlike conflicts solver.old log.old solver.new log.new) }
{
    let order = by_level(alloc, swept.levels)?;
    let mut twins = simulate(alloc, swept, &order)?;
    let turns = in_turn(alloc, swept, &order, &twins)?;
    for step in turns.as_slice() {
        show_at(swept, step.1, conflicts, &mut twins, solver, log)?;
        forget(solver, conflicts, log)?;
    }
    Ok(())
}

// Shows the gate at a place equal to its candidate, unless it is a model.
fn show_at(
    swept: &Swept<'_>,
    place: usize,
    conflicts: u64,
    twins: &mut Twins,
    solver: &mut Solver,
    log: &mut Log,
) -> Result<(), Memory>
    requires { (max : ℕ) × (given : List Clause) × IsBegunAlike max given conflicts solver.old log.old }
    ensures { OnOk result (StaysBegunAlike conflicts solver.old log.old solver.new log.new) }
{
    match swept.gates.get(place) {
        Some(gate) if !swept.models.has(gate) => {
            show_twin(swept.gates, gate, conflicts, twins, solver, log)
        }
        Some(gate) => show_stone(swept.gates, gate, conflicts, twins, solver, log),
        _ => Ok(()),
    }
}

// Shows a gate that an output depends on equal to its candidate, if it has one.
fn show_twin(
    gates: &[Gate],
    gate: &Gate,
    conflicts: u64,
    twins: &mut Twins,
    solver: &mut Solver,
    log: &mut Log,
) -> Result<(), Memory>
    requires { (max : ℕ) × (given : List Clause) × IsBegunAlike max given conflicts solver.old log.old }
    ensures { OnOk result (StaysBegunAlike conflicts solver.old log.old solver.new log.new) }
{
    // so that the goals have their part
    if conflicts / 4 < twins.spent() || !twins.is_read(gate) {
        return Ok(());
    }
    if let Some(twin) = twins.folded(gate) {
        twins.join(gate.v, twin);
        return log_operands(gates, gate, conflicts, twins, solver, log);
    }
    if let Some(twin) = twins.of_equal_operands(gates, gate) {
        return show_alike(gates, gate, twin, conflicts, twins, solver, log);
    }
    if let Some(twin) = twins.of_equal_values(gate) {
        return show_near(gates, gate, twin, conflicts, twins, solver, log);
    }
    Ok(())
}

// Shows a model that no output depends on equal to an earlier one on which some do.
fn show_stone(
    gates: &[Gate],
    gate: &Gate,
    conflicts: u64,
    twins: &mut Twins,
    solver: &mut Solver,
    log: &mut Log,
) -> Result<(), Memory>
    requires { (max : ℕ) × (given : List Clause) × IsBegunAlike max given conflicts solver.old log.old }
    ensures { OnOk result (StaysBegunAlike conflicts solver.old log.old solver.new log.new) }
{
    if conflicts / 4 < twins.spent() {
        return Ok(());
    }
    match twins.of_stone(gate) {
        Some(twin) => show_near(gates, gate, twin, conflicts, twins, solver, log),
        None => Ok(()),
    }
}

// Joins a gate to one of equal operands. Lemmas are needed where propagation doesn't lead from both operands to those
// that they equal; and it has to lead from one of them.
fn show_alike(
    gates: &[Gate],
    gate: &Gate,
    twin: Lit,
    conflicts: u64,
    twins: &mut Twins,
    solver: &mut Solver,
    log: &mut Log,
) -> Result<(), Memory>
    requires { (max : ℕ) × (given : List Clause) × IsBegunAlike max given conflicts solver.old log.old }
    ensures { OnOk result (StaysBegunAlike conflicts solver.old log.old solver.new log.new) }
{
    if twins.follows(gate.left) && twins.follows(gate.right) {
        twins.join_unlogged(gate.v, twin);
        return Ok(());
    }
    log_one(gates, gate, conflicts, twins, solver, log)?;
    show_within(gates, gate.v, twin, FEW, conflicts, twins, solver, log)?;
    Ok(())
}

// Logs what an operand of a gate equals, unless propagation leads from the other one.
fn log_one(
    gates: &[Gate],
    gate: &Gate,
    conflicts: u64,
    twins: &mut Twins,
    solver: &mut Solver,
    log: &mut Log,
) -> Result<(), Memory>
    requires { (max : ℕ) × (given : List Clause) × IsBegunAlike max given conflicts solver.old log.old }
    ensures { OnOk result (StaysBegunAlike conflicts solver.old log.old solver.new log.new) }
{
    if twins.follows(gate.left) || twins.follows(gate.right) {
        return Ok(());
    }
    log_twin(gates, twins.more_read(gate), conflicts, twins, solver, log)
}

// Logs what both operands of a gate equal.
fn log_operands(
    gates: &[Gate],
    gate: &Gate,
    conflicts: u64,
    twins: &mut Twins,
    solver: &mut Solver,
    log: &mut Log,
) -> Result<(), Memory>
    requires { (max : ℕ) × (given : List Clause) × IsBegunAlike max given conflicts solver.old log.old }
    ensures { OnOk result (StaysBegunAlike conflicts solver.old log.old solver.new log.new) }
{
    log_twin(gates, gate.left.var(), conflicts, twins, solver, log)?;
    log_twin(gates, gate.right.var(), conflicts, twins, solver, log)
}

// Logs what a variable equals, if the log doesn't say so.
fn log_twin(
    gates: &[Gate],
    variable: u32,
    conflicts: u64,
    twins: &mut Twins,
    solver: &mut Solver,
    log: &mut Log,
) -> Result<(), Memory>
    requires { (max : ℕ) × (given : List Clause) × IsBegunAlike max given conflicts solver.old log.old }
    ensures { OnOk result (StaysBegunAlike conflicts solver.old log.old solver.new log.new) }
{
    if let Some(twin) = twins.unlogged(variable) {
        show_within(gates, variable, twin, FEW, conflicts, twins, solver, log)?;
    }
    Ok(())
}

// Shows a gate equal to one with the same values, first by propagation alone. The more gates weren't shown to equal
// that one, the fewer lemmas there are.
fn show_near(
    gates: &[Gate],
    gate: &Gate,
    twin: Lit,
    conflicts: u64,
    twins: &mut Twins,
    solver: &mut Solver,
    log: &mut Log,
) -> Result<(), Memory>
    requires { (max : ℕ) × (given : List Clause) × IsBegunAlike max given conflicts solver.old log.old }
    ensures { OnOk result (StaysBegunAlike conflicts solver.old log.old solver.new log.new) }
{
    if show_within(gates, gate.v, twin, 1, conflicts, twins, solver, log)? {
        return Ok(());
    }
    let few = FEW >> twins.missed(twin.var()).min(63);
    if !show_within(gates, gate.v, twin, few, conflicts, twins, solver, log)? {
        twins.miss(twin.var());
    }
    Ok(())
}

// Shows that a variable equals a literal, each implication within so many lemmas; whether it did. The variables below
// both are decided first.
fn show_within(
    gates: &[Gate],
    variable: u32,
    twin: Lit,
    few: u64,
    conflicts: u64,
    twins: &mut Twins,
    solver: &mut Solver,
    log: &mut Log,
) -> Result<bool, Memory>
    requires { (max : ℕ) × (given : List Clause) × IsBegunAlike max given conflicts solver.old log.old }
    ensures { OnOk result (StaysBegunAlike conflicts solver.old log.old solver.new log.new) }
{
    solver.prefer(twins.near(gates, variable, twin.var())?);
    let before = log.added();
    let own = Lit(variable.wrapping_mul(2));
    let shown = show_equal(solver, own, twin, few, conflicts, log)?;
    if shown {
        twins.join(variable, twin);
        twins.set_logged(variable);
    } else {
        twins.spend(log.added().saturating_sub(before));
    }
    Ok(shown)
}

// The values of all gates on the patterns, and the models by operands and by values.
fn simulate(alloc: Global, swept: &Swept<'_>, order: &[(u32, usize)]) -> Result<Twins, Memory> {
    let gates = swept.gates;
    let mut twins = Twins::new(alloc, swept)?;
    let mut patterns = patterns_of(&twins, gates);
    draw(&mut twins, gates, &mut patterns);
    read(&mut twins, swept, order);
    for step in order {
        if let Some(gate) = gates.get(step.1) {
            twins.set(gate);
        }
    }
    enter_models(swept, order, &mut twins)?;
    Ok(twins)
}

// Enters the models by level, or as they are listed where they read other gates.
fn enter_models(
    swept: &Swept<'_>,
    order: &[(u32, usize)],
    twins: &mut Twins,
) -> Result<(), Memory> {
    for (number, step) in order.iter().enumerate() {
        let place = if twins.crosses() { number } else { step.1 };
        if let Some(gate) = swept.gates.get(place) {
            if swept.models.has(gate) {
                twins.enter(swept.gates, gate)?;
            }
        }
    }
    Ok(())
}

// Draws the values of what gates read and is none.
fn draw(twins: &mut Twins, gates: &[Gate], patterns: &mut Patterns) {
    for gate in gates {
        twins.draw(gates, gate.left.var(), patterns);
        twins.draw(gates, gate.right.var(), patterns);
    }
}

// Patterns of drawn values, with runs of zeros where models read other gates and there are many inputs.
fn patterns_of(twins: &Twins, gates: &[Gate]) -> Patterns {
    if twins.crosses_widely() {
        Patterns::with_zeros(greatest_input(twins, gates))
    } else {
        Patterns::drawn()
    }
}

// The greatest variable that a gate reads and that is none.
fn greatest_input(twins: &Twins, gates: &[Gate]) -> u32 {
    let mut most = 0u32;
    for gate in gates {
        for variable in [gate.left.var(), gate.right.var()] {
            if twins.is_input(gates, variable) {
                most = most.max(variable);
            }
        }
    }
    most
}

// Finds what the outputs depend on.
fn read(twins: &mut Twins, swept: &Swept<'_>, order: &[(u32, usize)]) {
    for pair in swept.pairs {
        twins.read(pair.0.var());
        twins.read(pair.1.var());
    }
    for step in order.iter().rev() {
        if let Some(gate) = swept.gates.get(step.1) {
            twins.read_operands(gate);
        }
    }
}

// Drafts of the lines of a plan.
use crate::walk::{Walk, When};
use frontier_core::Step;
use gate_axioms::Draft;
use graph_core::{Memory, Operands};
use ripple_graft::Extended;
use std::alloc::Global;

// So many drafts for each gate and two gates more, at most.
const DRAFTS_FOR_GATE: usize = 16;

/// Drafts of the lines of a plan; none where a frontier has more monomials than the budget, or the lines would be too
/// many or too long.
pub fn draft_plan(
    alloc: Global,
    extended: &Extended<'_>,
    operands: &Operands,
    steps: &[Step],
    budget: u64,
) -> Result<Option<Vec<Draft>>, Memory> {
    if !are_columns_first(steps) {
        if let Some(drafts) = drafts_of(alloc, extended, operands, steps, budget, When::Late)? {
            return Ok(Some(drafts));
        }
    }
    drafts_of(alloc, extended, operands, steps, budget, When::AtOnce)
}

// Whether all columns are added before the first gate is taken.
fn are_columns_first(steps: &[Step]) -> bool {
    let mut has_gate = false;
    for step in steps {
        match step {
            Step::Add(_) if has_gate => return false,
            Step::Add(_) => (),
            Step::Eliminate(_) => has_gate = true,
        }
    }
    true
}

fn drafts_of(
    alloc: Global,
    extended: &Extended<'_>,
    operands: &Operands,
    steps: &[Step],
    budget: u64,
    when: When,
) -> Result<Option<Vec<Draft>>, Memory> {
    let most = extended.gates().len().saturating_add(2);
    let most = most.saturating_mul(DRAFTS_FOR_GATE);
    let mut walk = Walk::new(alloc, extended, when)?;
    if !walk.take_all(operands, steps, budget, most)? {
        return Ok(None);
    }
    let drafts = walk.into_drafts()?;
    Ok(Some(drafts))
}

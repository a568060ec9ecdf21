// Reductions along a plan.
ghost use Rattle.std.specs.Prelude.{◌≡◌, ◌≤◌, ◌+◌, [], None, IfOk, length, ℕ};
ghost use Rattle.graph_core.specs.Graph.Operands.{ReadInputs};
ghost use Rattle.column_reducer.specs.Gathering.{IsWalkOutcome};
ghost use Rattle.column_reducer.specs.Reducing.{ContinuesLines, IsReduced, Planned};
ghost use Rattle.ripple_graft.specs.Extension.{IsExtension};

use crate::batch_lines::write_batches;
use crate::plan::Plan;
use crate::reduced::Reduced;
use crate::walk::{Ended, Outcome, take_steps};
use graph_core::{Memory, Operands};
use mv_fact::Grow;
use pac_writer::Lines;
use poly_terms::{Poly, Terms};
use std::alloc::Global;

/// Adds the columns and eliminates the gates of a plan, in the plan's order, as long as each frontier has at most
/// `budget` monomials, and writes the lines by which the last one differs from the specification. The lines are new.
/// Where a column is replaced, the frontiers have its new output and the specification its old one, and the last line
/// takes the column's axiom times 2^k.
pub fn reduce(
    alloc: Global,
    plan: &Plan<'_>,
    budget: u64,
    lines: &mut Lines<'_>,
) -> Result<Reduced, Memory>
    requires same_graph { lines.old.extended ≡ plan.now.extended }
    requires new { lines.old.lines ≡ [] }
    requires unclosed { lines.old.closing ≡ None }
    requires inputs { ReadInputs plan.now.extended.graph lines.old.sides }
    ensures goes_on { ContinuesLines lines.old lines.new }
    ensures reduced { IfOk result (IsReduced plan.now lines.old.sides budget lines.new) }
    ensures few { length lines.new.lines ≤ length plan.now.extended.gates + 2 }
{
    let mut work = TakeSteps {
        alloc,
        plan,
        operands: lines.operands(),
        budget,
    };
    let _last = lines.last();
    let _gates = plan.extended().gates();
    let outcome = lines.grow(&mut work, &mut ())?;
    write_outcome(lines, outcome)
}

// Takes the steps in the table that the lines own.
#[derive(Drop)]
struct TakeSteps<'a> {
    alloc: Global,
    plan: &'a Plan<'a>,
    operands: &'a Operands,
    budget: u64,
}

impl<'a> Grow<Poly> for TakeSteps<'a> {
    ghost use Rattle.std.specs.Prelude.{IfOk};
    ghost use Rattle.column_reducer.specs.Gathering.{CanTake, IsWalkOutcome};

    type Out = Result<Outcome, Memory>;

    type On = ();

    ghost can_grow = { λ work _ table. CanTake work.plan.now work.operands.now table };

    ghost did = { λ work _ _ out _ _ table.
        IfOk out (IsWalkOutcome work.plan.now work.operands.now table work.budget) };

    fn grow(&mut self, on: &mut (), table: &mut Terms) -> Result<Outcome, Memory> {
        take_steps(self.alloc, table, self.plan, self.operands, self.budget)
    }
}

// Writes what all steps have gathered.
fn write_outcome(lines: &mut Lines<'_>, outcome: Outcome) -> Result<Reduced, Memory>
    requires new { lines.old.lines ≡ [] }
    requires unclosed { lines.old.closing ≡ None }
    requires extension { IsExtension lines.old.extended }
    requires outcome { (p : Planned) × (budget : ℕ) × (p.extended ≡ lines.old.extended) ×
        IsWalkOutcome p lines.old.sides lines.old.table budget outcome }
    ensures goes_on { ContinuesLines lines.old lines.new }
    ensures reduced { IfOk result (λ r. (p : Planned) (budget : ℕ) → p.extended ≡ lines.old.extended →
        IsWalkOutcome p lines.old.sides lines.old.table budget outcome → IsReduced p lines.old.sides budget lines.new r) }
    ensures few { length lines.new.lines ≤ length lines.old.extended.gates + 2 }
{
    let _last = lines.last();
    let _max = lines.extended().max();
    let _outputs = lines.extended().graph().outputs();
    match outcome {
        Outcome::Passed { step, size } => Ok(Reduced::Passed { step, size }),
        Outcome::Ended(ended) => {
            let Ended { rest, gathered } = ended;
            let id = write_batches(lines, gathered.batches, gathered.columns, gathered.total)?;
            Ok(Reduced::Rest { poly: rest, id })
        }
    }
}

// The lines of batches, and the last line, which adds them up, each times its weight.
ghost use Rattle.std.specs.Prelude.{◌≡◌, ◌<◌, ◌≤◌, ◌⊎◌, ◌+◌, ◌^◌, ◌++◌, ◌∷◌, ℕ, [], None, List, IfOk, OnOk, length};
ghost use Rattle.algebra_core.specs.AlgebraLines.{IsLive, value_of};
ghost use Rattle.graph_core.specs.Graph.Assignments.{Assignment};
ghost use Rattle.graph_core.specs.Graph.Extended.{Extended};
ghost use Rattle.graph_core.specs.Graph.Operands.{Sides};
ghost use Rattle.ripple_graft.specs.Extension.{IsExtension};
ghost use Rattle.poly_terms.specs.Tables.{Sum, Table, value_in};
ghost use Rattle.pac_writer.specs.Writing.{IsOver, written_ledger};
ghost use Rattle.column_reducer.specs.declared.gathered.Batch.{Batch as OneBatch};
ghost use Rattle.column_reducer.specs.Gathering.{AreBatchesWritten, AreSumBatches};
ghost use Rattle.column_reducer.specs.Reducing.{AreLinesOver};

use crate::gathered::Batch;
use graph_core::Memory;
use pac_writer::Lines;
use poly_terms::Poly;

/// Writes a line for each batch, and one more for their sum, each times its weight, and the columns' parts; where there
/// is neither, it gives 0.
pub(crate) fn write_batches(
    lines: &mut Lines<'_>,
    batches: Vec<Batch>,
    columns: Vec<(u64, Poly)>,
    total: Poly,
) -> Result<u64, Memory>
    requires fresh { lines.old.lines ≡ [] }
    requires unclosed { lines.old.closing ≡ None }
    requires extension { IsExtension lines.old.extended }
    requires batches { AreSumBatches lines.old.extended lines.old.table batches.items columns.items total }
    requires room { lines.old.last + length batches.items + 1 < 2 ^ 48 }
    ensures graph { AreLinesOver lines.old.extended lines.old.sides lines.old.table lines.new }
    ensures line { IfOk result (λ id. (id ≡ 0) ⊎ IsLive (written_ledger lines.new).live id) }
    ensures value { IfOk result (λ id. (σ : Assignment) →
        value_of (written_ledger lines.new).live id σ ≡ value_in lines.old.table total σ) }
    ensures few { length lines.new.lines ≤ length batches.items + 1 }
{
    let _last = lines.last();
    let mut left = batches;
    let mut weighted = columns;
    while let Some(batch) = left.pop() {
        write_batch(lines, batch, &mut weighted)?;
    }
    write_sum(lines, weighted, total)
}

// Writes a batch's line.
fn write_batch(
    lines: &mut Lines<'_>,
    batch: Batch,
    weighted: &mut Vec<(u64, Poly)>,
) -> Result<(), Memory>
    requires written { (e : Extended) × (s : Sides) × (t : Table) × (total : Sum) × (gs : List OneBatch) ×
        AreBatchesWritten e s t total (gs ++ batch ∷ []) weighted.old.items lines.old }
    requires room { lines.old.last + 1 < 2 ^ 48 }
    ensures graph { (e : Extended) (s : Sides) (t : Table) → AreLinesOver e s t lines.old → AreLinesOver e s t lines.new }
    ensures few { length lines.new.lines ≤ length lines.old.lines + 1 }
    ensures last { OnOk result (lines.new.last ≡ lines.old.last + 1) }
    ensures written { OnOk result ((e : Extended) (s : Sides) (t : Table) (total : Sum) (gs : List OneBatch) →
        AreBatchesWritten e s t total (gs ++ batch ∷ []) weighted.old.items lines.old →
        AreBatchesWritten e s t total gs weighted.new.items lines.new) }
{
    let Batch {
        parts,
        poly,
        weight,
    } = batch;
    let id = lines.combine(parts, poly)?;
    weighted.push((id, weight))?;
    Ok(())
}

// Writes the sum of lines, each times its weight, if there is one.
fn write_sum(lines: &mut Lines<'_>, weighted: Vec<(u64, Poly)>, total: Poly) -> Result<u64, Memory>
    requires written { AreBatchesWritten lines.old.extended lines.old.sides lines.old.table total [] weighted.items lines.old }
    requires over { IsOver lines.old.extended.max lines.old.table total }
    requires room { lines.old.last + 1 < 2 ^ 48 }
    ensures graph { AreLinesOver lines.old.extended lines.old.sides lines.old.table lines.new }
    ensures line { IfOk result (λ id. (id ≡ 0) ⊎ IsLive (written_ledger lines.new).live id) }
    ensures value { IfOk result (λ id. (σ : Assignment) →
        value_of (written_ledger lines.new).live id σ ≡ value_in lines.old.table total σ) }
    ensures few { length lines.new.lines ≤ length lines.old.lines + 1 }
{
    let _last = lines.last();
    if weighted.is_empty() {
        return Ok(0);
    }
    lines.combine(weighted, total)
}

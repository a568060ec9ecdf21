// Lists of what was read.
ghost use Rattle.std.specs.Prelude.{IfErr, OnOk};
ghost use Rattle.mv_text.specs.Steps.{IsMisfit, Pushes};

/// Puts an item after those of a list, where both are there; else there is no list any more.
use crate::line_fail::LineFail;

#[inline(always)]
pub fn push<T: Drop>(list: &mut Option<Vec<T>>, item: Option<T>) -> Result<(), LineFail>
    ensures ok { OnOk result (Pushes list.old item list.new) }
    ensures err { IfErr result (IsMisfit ⊥) }
{
    match item {
        Some(item) => {
            if let Some(items) = list {
                items.push(item).map_err(|_| LineFail::Memory)?;
            }
        }
        None => *list = None,
    }
    Ok(())
}

// Numbers that become others.
ghost use Rattle.std.specs.Prelude.{◌≡◌, ◌<◌, length, map, slice_index, IfOk};
ghost use Rattle.std.specs.List.{All};

use drup_checker::Numbers;
use graph_core::Memory;
use std::alloc::Global;

/// For each number the one that stands at it in a list.
pub(crate) fn renamed(alloc: Global, numbers: &Numbers, ranks: &[u64]) -> Result<Numbers, Memory>
    requires { All (λ n. n < length ranks.now) numbers.now }
    ensures { IfOk result (λ r. r ≡ map (slice_index ranks.now) numbers.now) }
{
    let mut items = Vec::new(alloc);
    for &number in numbers.as_slice() {
        items.push(ranks[number as usize])?;
    }
    Ok(Numbers::of(items))
}

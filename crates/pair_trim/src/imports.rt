// The clauses that lines of an algebra certificate import.
ghost use Rattle.std.specs.Prelude.{◌≡◌, ◌<◌, length, slice_index, IfOk, IfSome};
ghost use Rattle.std.specs.List.{All};
ghost use Rattle.pair_trim.specs.Lines.{all_renumbered, import_in, imports_in, renumbered_in};

use graph_core::Memory;
use poly_text::PacLine;
use std::alloc::Global;

/// The numbers of the clauses that lines import, in the lines' order.
pub(crate) fn imported_numbers(alloc: Global, lines: &[PacLine]) -> Result<Vec<u64>, Memory>
    ensures { IfOk result (λ numbers. numbers.items ≡ imports_in lines.now) }
{
    let mut numbers = Vec::new(alloc);
    for line in lines {
        if let Some(number) = import_of(line) {
            numbers.push(number)?;
        }
    }
    Ok(numbers)
}

/// Each line imports the clause with the new number of the one that it imported, which the ranks have.
pub(crate) fn renumber(lines: &mut [PacLine], ranks: &[u64])
    requires { All (λ n. n < length ranks.now) (imports_in lines.old) }
    ensures { lines.new ≡ all_renumbered (slice_index ranks.now) lines.old }
{
    for place in 0..lines.len() {
        renumber_line(&mut lines[place], ranks);
    }
}

fn import_of(line: &PacLine) -> Option<u64>
    ensures { result ≡ import_in line.now }
{
    match line {
        PacLine::Import { clause, .. } => Some(*clause),
        _ => None,
    }
}

fn renumber_line(line: &mut PacLine, ranks: &[u64])
    requires { IfSome (import_in line.old) (λ n. n < length ranks.now) }
    ensures { line.new ≡ renumbered_in (slice_index ranks.now) line.old }
{
    if let PacLine::Import { clause, .. } = line {
        *clause = ranks[*clause as usize];
    }
}

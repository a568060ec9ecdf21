// What is concluded from a plan that ended: the certificates of its lines, or the numbers that show the graph to be
// wrong.
ghost use Rattle.std.specs.Prelude.{◌≡◌, IfOk, length, option_map};
ghost use Rattle.std.specs.List.{All};
ghost use Rattle.clause_core.specs.Clause.{IsClause};
ghost use Rattle.clause_core.specs.ClauseLines.{clause_in};
ghost use Rattle.ripple_graft.specs.Blocks.{block_of};
ghost use Rattle.joint_prover.specs.Endings.{AreLeast, Decides, IsJob, IsProof, IsShown, lent, replacement_named};
ghost use Rattle.joint_prover.specs.Replacements.{header_of, version_for};
ghost use Rattle.joint_prover.specs.Verdicts.{IsWrong};

use crate::decision::Decision;
use crate::difference::{Difference, value_on};
use crate::replacement::Lent;
use crate::shown::Shown;
use crate::task::Job;
use clause_core::Line;
use drup_text::Header;
use graph_core::{Graph, Memory, Numbers};
use pac_writer::Lines;
use pair_core::Pair;
use ripple_graft::{Beside, Block, BlockList, Cut, Outputs, Pairs};
use std::alloc::Global;

/// Lines that are closed over an extended graph are an algebra certificate. What shows that graph is the clause
/// certificate.
pub(crate) fn prove(
    alloc: Global,
    job: &Job<'_>,
    shown: Shown<'_>,
    lines: Lines<'_>,
) -> Result<Decision, Memory>
    requires job { IsJob job.now }
    requires shown { IsShown job.now.graph.now job.now.task shown }
    requires proof { IsProof job.now.graph.now job.now.task.claim (replacement_named shown) lines }
    ensures { IfOk result (Decides job.now.graph.now job.now.task (replacement_named shown.entry)) }
{
    let header = header(alloc, job, shown)?;
    let clauses = copied(alloc, shown.log)?;
    let (terms, algebra, closing) = lines.into_parts();
    Ok(Decision::Proved(Pair {
        header,
        clauses,
        algebra,
        terms,
        closing,
    }))
}

// The header that names what takes the place of outputs.
fn header(alloc: Global, job: &Job<'_>, shown: Shown<'_>) -> Result<Header, Memory>
    ensures { IfOk result (λ h. h ≡ header_of job.now.graph.now job.now.task.version (replacement_named shown.entry)) }
{
    let version = version_for(job.task.version, shown.by);
    let mut blocks = Vec::new(alloc);
    let beside = match shown.by {
        Some(Lent::Adder(cut)) => {
            blocks.push(block(alloc, job.graph, cut)?)?;
            Beside::nothing(alloc)
        }
        Some(Lent::Beside(beside)) => beside_again(alloc, beside)?,
        None => Beside::nothing(alloc),
    };
    Ok(Header {
        version,
        blocks: BlockList::from_vec(blocks),
        beside,
    })
}

// The version of what is written, where this is the greatest that may be.
fn version_for(most: u8, by: Option<Lent<'_>>) -> u8
    ensures { result ≡ version_for most (option_map lent by.entry) }
{
    match by {
        Some(Lent::Beside(_)) => 3,
        _ => { if most == 2 { 2 } else { 1 } }
    }
}

// The block of a cut: the last carry is replaced too where it is that of the last column.
fn block(alloc: Global, graph: &Graph, cut: &Cut) -> Result<Block, Memory>
    ensures { IfOk result (λ b. b ≡ block_of (length graph.now.outputs) cut.now) }
{
    let pairs = Vec::from_slice(alloc, cut.pairs.as_slice())?;
    let end = u64::from(cut.lo) + pairs.len() as u64;
    let carry = end + 1 == u64::from(graph.outputs());
    let cut = Cut {
        lo: cut.lo,
        pairs: Pairs::from_vec(pairs),
    };
    Ok(Block { cut, carry })
}

// The same gates and outputs once more.
fn beside_again(alloc: Global, beside: &Beside) -> Result<Beside, Memory>
    ensures { IfOk result (λ b. b ≡ beside.now) }
{
    let gates = Vec::from_slice(alloc, beside.gates.as_slice())?;
    let outputs = Vec::from_slice(alloc, beside.outputs.as_slice())?;
    Ok(Beside {
        gates: Pairs::from_vec(gates),
        outputs: Outputs::from_vec(outputs),
    })
}

// The same lines once more. Each has a literal once.
fn copied(alloc: Global, log: &[Line]) -> Result<Vec<Line>, Memory>
    ensures lines { IfOk result (λ lines. lines.items ≡ log.now) }
    ensures once { IfOk result (λ lines. All (λ line. IsClause (clause_in line)) log.now) }
{
    let mut lines = Vec::new(alloc);
    for line in log {
        let copy = copy_of(alloc, line)?;
        lines.push(copy)?;
    }
    Ok(lines)
}

fn copy_of(alloc: Global, line: &Line) -> Result<Line, Memory>
    ensures line { IfOk result (λ copy. copy ≡ line.now) }
    ensures once { IfOk result (λ copy. IsClause (clause_in line.now)) }
{
    match line {
        Line::Add(clause) => {
            // a clause has a literal once
            let _literals = clause.lits();
            Ok(Line::Add(clause.copy(alloc)?))
        }
        Line::Delete(clause) => {
            let _literals = clause.lits();
            Ok(Line::Delete(clause.copy(alloc)?))
        }
    }
}

/// The graph differs at these numbers and at none before them.
pub(crate) fn refute(alloc: Global, job: &Job<'_>, numbers: Numbers) -> Result<Difference, Memory>
    requires job { IsJob job.now }
    requires least { AreLeast job.now.graph.now job.now.operands.now numbers }
    ensures { IfOk result (IsWrong job.now.graph.now job.now.task.claim) }
{
    let difference = value_on(alloc, job, numbers)?;
    Ok(difference)
}

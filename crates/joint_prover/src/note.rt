// The note on a rewriting.
ghost use Rattle.std.specs.Prelude.{◌≡◌, ℕ, IfSome};
ghost use Rattle.graph_core.specs.Graph.{Aig};
ghost use Rattle.graph_core.specs.Graph.Operands.{AreInRange, Sides};
ghost use Rattle.stage_rewriter.specs.Rewriting.{IsRewriting};
ghost use Rattle.joint_prover.specs.Notes.{note_of, rewriting_note_of};

use crate::replacement::Replacement;
use cdcl_solver::Log;
use graph_core::Numbers;
use ripple_graft::{Beside, Cut};
use stage_rewriter::Rewriting;

/// What became of putting a ripple-carry adder in place of a graph's final stage.
#[derive(Debug, Drop)]
pub enum Note {
    /// The adder's outputs are the graph's on every evaluation.
    Used(Cut),
    /// The graph has no final stage.
    None,
    /// Operands, and an addend where there is one, at which an output of the adder isn't the graph's.
    Differs { numbers: Numbers, has_addend: bool },
    /// As many lemmas as there may be conflicts, and beside them so many goals refuted before the one in hand.
    Spent { lemmas: u64, goal: u64, log: Log },
    /// At a cut that was found by the values of its variables the adder's outputs are the graph's on every evaluation,
    /// and a plan over the graph with it was tried.
    Found(Cut),
    /// With these gates beside the graph and outputs in place of its own, each new output is the old one on every
    /// evaluation, and a plan over the graph with them was tried.
    Beside(Beside),
}

/// The note: what was found, where a plan over the graph with it gave the verdict, or else what came of the rewriting.
/// Neither the graph with the adder is kept nor the lines that show its goals.
pub(crate) fn make_note(
    has_addend: bool,
    rewritten: Rewriting<'_>,
    found: Option<Replacement>,
) -> Note
    ensures { result ≡ note_of has_addend rewritten.entry found }
{
    match found {
        Some(Replacement::Adder(cut)) => Note::Found(cut),
        Some(Replacement::Beside(beside)) => Note::Beside(beside),
        None => rewriting_note(has_addend, rewritten),
    }
}

/// The numbers on which an adder's outputs aren't the graph's, if some are known.
pub(crate) fn numbers_of(rewritten: &Rewriting<'_>) -> Option<Numbers>
    ensures { (g : Aig) (s : Sides) (conflicts : ℕ) →
        IsRewriting g s conflicts rewritten.now → IfSome result (AreInRange s) }
{
    match rewritten {
        Rewriting::Differs(numbers) => Some(*numbers),
        _ => None,
    }
}

// Where the claim has an addend or none.
fn rewriting_note(has_addend: bool, rewritten: Rewriting<'_>) -> Note
    ensures { result ≡ rewriting_note_of has_addend rewritten.entry }
{
    match rewritten {
        Rewriting::Used { cut, .. } => Note::Used(cut),
        Rewriting::None => Note::None,
        Rewriting::Differs(numbers) => Note::Differs {
            numbers,
            has_addend,
        },
        Rewriting::Spent { lemmas, goal, log } => Note::Spent { lemmas, goal, log },
    }
}

// The lines that a solver and its caller append.
ghost use Rattle.std.specs.Prelude.{◌≡◌, ◌<◌, [], ◌∷◌, ◌++◌, false, length, true, slice_index_or, IfOk, IsFalse, IsTrue, OnOk, OnErr};
ghost use Rattle.clause_core.specs.ClauseLines.{added, clause_in};
ghost use Rattle.clause_core.specs.declared.line.Line.{Line as ClauseLine};
ghost use Rattle.cdcl_solver.specs.Loading.{SameLive};
ghost use Rattle.cdcl_solver.specs.Logs.{LogView, LeavesLive, with_added};
ghost use Rattle.cdcl_solver.specs.Deletions.{DeletesLine};

use crate::runs::Runs;
use clause_core::{Clause, ClauseList, Line};
use graph_core::Memory;
use std::alloc::Global;
use std::marker::Model;

/// The lines of a clause certificate, as a solver and its caller make them.
#[derive(Debug, Drop)]
pub struct Log {
    lines: Vec<Line>,
    /// Of each line, whether it added a clause that is live.
    live: Vec<bool>,
    /// How many lines add a clause.
    added: u64,
    runs: Runs,
}

impl Model for Log {
    ghost use Rattle.cdcl_solver.specs.Logs.{LogView};
    ghost use Rattle.cdcl_solver.specs.Deletions.{IsLog, log_view_of};

    ghost Value = { LogView };

    ghost view = { λ log. log_view_of log.lines.items log.live.items };

    ghost invariant = { λ log. IsLog log.lines.items log.live.items log.added log.runs };
}

impl Log {
    pub fn new(alloc: Global) -> Log
        ensures { result ≡ record { lines = []; left = [] } }
    {
        Log {
            lines: Vec::new(alloc),
            live: Vec::new(alloc),
            added: 0,
            runs: Runs::new(),
        }
    }

    /// Appends one line that adds a clause.
    pub fn push(&mut self, clause: Clause) -> Result<(), Memory>
        ensures ok { OnOk result (self.new ≡ with_added self.old clause) }
        ensures err { OnErr result (self.new ≡ self.old) }
    {
        append(&mut self.lines, &mut self.live, Line::Add(clause), true)?;
        self.added += 1;
        self.runs.add();
        Ok(())
    }

    /// Appends one line that deletes a clause, where a deletion may come and the line at a place added it and it is
    /// live; whether it did.
    pub fn delete(&mut self, place: usize, clause: Clause) -> Result<bool, Memory>
        ensures yes { IfOk result (λ done. IsTrue done → DeletesLine self.old clause self.new) }
        ensures no { IfOk result (λ done. IsFalse done → self.new ≡ self.old) }
        ensures err { OnErr result (self.new ≡ self.old) }
    {
        if !self.runs.allow() || !is_live_at(&self.lines, &self.live, place, &clause) {
            return Ok(false);
        }
        append(&mut self.lines, &mut self.live, Line::Delete(clause), false)?;
        self.live[place] = false;
        self.runs.delete();
        Ok(true)
    }

    /// Whether a run of deletions may come now.
    pub fn may_delete(&self) -> bool {
        self.runs.allow()
    }

    pub fn lines(&self) -> &[Line]
        ensures lines { result.now ≡ self.now.lines }
        ensures left { LeavesLive [] self.now.lines self.now.left }
    {
        &self.lines
    }

    /// How many clauses they add.
    pub fn added(&self) -> u64
        ensures { result ≡ length (added self.now.lines) }
    {
        self.added
    }

    /// The clauses that they leave live.
    pub fn left(&self, alloc: Global) -> Result<ClauseList, Memory>
        ensures { IfOk result (λ clauses. SameLive clauses self.now.left) }
    {
        let mut clauses = ClauseList::new(alloc);
        for (place, line) in self.lines.iter().enumerate() {
            if self.live[place] {
                clauses.push(clause_of(line).copy(alloc)?)?;
            }
        }
        Ok(clauses)
    }
}

// One more line.
fn append(
    lines: &mut Vec<Line>,
    live: &mut Vec<bool>,
    line: Line,
    is_live: bool,
) -> Result<(), Memory>
    ensures ok { OnOk result ((lines.new.items ≡ lines.old.items ++ line ∷ []) ×
        (live.new.items ≡ live.old.items ++ is_live ∷ [])) }
    ensures err { OnErr result ((lines.new.items ≡ lines.old.items) × (live.new.items ≡ live.old.items)) }
{
    live.try_reserve(1)?;
    lines.push(line)?;
    let _ = live.push(is_live);
    Ok(())
}

// Whether the line at a place added this clause, and it is live.
fn is_live_at(lines: &[Line], live: &[bool], place: usize, clause: &Clause) -> bool
    ensures there { IsTrue result → slice_index_or live.now place false ≡ true }
    ensures line { IsTrue result → (x : ClauseLine) → slice_index_or lines.now place x ≡ ClauseLine.Add clause.now }
    ensures within { IsTrue result → place < length lines.now }
{
    if place >= lines.len() || place >= live.len() || !live[place] {
        return false;
    }
    match &lines[place] {
        Line::Add(own) => own.lits() == clause.lits(),
        Line::Delete(_) => false,
    }
}

fn clause_of(line: &Line) -> &Clause
    ensures { result.now ≡ clause_in line.now }
{
    match line {
        Line::Add(clause) => clause,
        Line::Delete(clause) => clause,
    }
}

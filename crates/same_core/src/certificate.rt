// The certificate of two graphs, written.
ghost use Rattle.std.specs.List.{All};
ghost use Rattle.std.specs.Prelude.{◌≡◌, OnErr, OnOk};
ghost use Rattle.clause_core.specs.Clause.{IsClause};
ghost use Rattle.clause_core.specs.ClauseLines.{clause_in};
ghost use Rattle.command_core.specs.Written.{FailsToWrite, WritesFile};
ghost use Rattle.drup_text.specs.SameFiles.{same_text};
ghost use Rattle.mv_desk.specs.Calls.{HasWriteCause};
ghost use Rattle.mv_desk.specs.View.{KeepsTelling};
ghost use Rattle.mv_desk.specs.declared.slot.Slot.TheVariants as slot;

use clause_core::Line;
use drup_text::write_same;
use mv_desk::{Desk, Failed, Slot, WriteFault};

pub(crate) fn write_certificate<D: Desk>(
    desk: &mut D,
    lines: &[Line],
    name: &str,
) -> Result<(), WriteFault>
    ensures whole { OnOk result (WritesFile slot.Clauses name.now (same_text lines.now)
        (D.seen desk.old) (D.seen desk.new)) }
    ensures stops { OnErr result (FailsToWrite slot.Clauses name.now (same_text lines.now)
        (D.seen desk.old) (D.seen desk.new)) }
    ensures once { All (λ line. IsClause (clause_in line)) lines.now }
    ensures cause { HasWriteCause (D.seen desk.old) (D.seen desk.new) result }
    ensures tells { KeepsTelling (D.seen desk.old) (D.seen desk.new) }
{
    have_literals_once(lines);
    match desk.create_file(Slot::Clauses, name) {
        Ok(()) => write_same(desk, lines),
        Err(Failed) => Err(WriteFault),
    }
}

// Each line has a literal once. Nothing is done.
fn have_literals_once(lines: &[Line])
    ensures { All (λ line. IsClause (clause_in line)) lines.now }
{
    for line in lines {
        has_literals_once(line);
    }
}

fn has_literals_once(line: &Line)
    ensures { IsClause (clause_in line.now) }
{
    match line {
        Line::Add(clause) => {
            let _literals = clause.lits();
        }
        Line::Delete(clause) => {
            let _literals = clause.lits();
        }
    }
}

// The algebra certificate: its header, and then its lines.
ghost use Rattle.std.specs.List.{All};
ghost use Rattle.std.specs.Prelude.{◌≡◌, ◌<◌, [], true, IfErr, IfOk, IfSome, OnOk};
ghost use Rattle.graph_core.specs.Graph.Operands.{profile_of, sides_for};
ghost use Rattle.algebra_core.specs.AlgebraLines.{specification};
ghost use Rattle.graph_core.specs.Graph.Extended.{AgreeOnColumns, modulus};
ghost use Rattle.graph_core.specs.Aiger.Sizes.{IsSizedAs};
ghost use Rattle.mv_desk.specs.Calls.{ReadsOnly};
ghost use Rattle.mv_desk.specs.View.{KeepsTelling, bytes_under};
ghost use Rattle.mv_desk.specs.declared.slot.Slot.TheVariants as slot;
ghost use Rattle.mv_fact.specs.Always.{Always};
ghost use Rattle.poly_text.specs.Recorded.{lines_in};
ghost use Rattle.mv_text.specs.LineReading.{lengths_of};
ghost use Rattle.algebra_core.specs.Certificates.{IsLawfulAlgebra};
ghost use Rattle.clause_core.specs.Facts.{IsClauseFact};
ghost use Rattle.pair_core.specs.ClauseFiles.{importable};
ghost use Rattle.joint_checker.specs.Reading.{ReadsCertificate};
ghost use Rattle.joint_checker.specs.Fails.{IsAlgebraFail};
ghost use Rattle.algebra_judge.specs.Records.{IsLawfulRecord, IsRecordOf};
ghost use Rattle.joint_checker.specs.Shown.{premises_of};

use crate::clause_file::Shown;
use algebra_judge::{AlgebraFail, Closed, judge, line_refused};
use clause_core::ClauseList;
use command_core::Stop;
use graph_core::{Claim, Operands};
use mv_desk::{Desk, Limits, Slot};
use pac_checker::PacChecker;
use poly_text::AlgebraFile;
use std::alloc::Global;

/// Whether a file is a lawful algebra certificate over what a clause file gives, and what is recorded of it.
pub(crate) fn check_algebra<D: Desk>(
    alloc: Global,
    desk: &mut D,
    limits: &Limits,
    name: &str,
    shown: &Shown<'_>,
    claim: Claim,
    records: bool,
) -> Result<Closed, AlgebraFail>
    requires sized { IsSizedAs (profile_of claim.widths) shown.now.extended.graph }
    requires columns { Always shown.now.extended.gates (AgreeOnColumns shown.now.extended) }
    requires facts { All (IsClauseFact shown.now.extended.gates) shown.now.recorded.added }
    ensures lawful { OnOk result (IfSome (bytes_under (D.seen desk.old) name.now)
        (IsLawfulAlgebra (lengths_of limits.now) (premises_of shown.now)
        (sides_for claim shown.now.extended.graph))) }
    ensures vanishes { OnOk result (Always shown.now.extended.gates
        (λ σ. specification shown.now.extended (sides_for claim shown.now.extended.graph) σ ≡ 0)) }
    ensures recorded { records ≡ true → IfOk result
        (IsLawfulRecord (premises_of shown.now) (sides_for claim shown.now.extended.graph)) }
    ensures told { IfOk result (λ c. IfSome (bytes_under (D.seen desk.old) name.now)
        (λ bytes. IsRecordOf records shown.now.header.version (modulus shown.now.extended) bytes
        (lines_in c.record.terms c.record.lines.items) c.id c.lines)) }
    ensures refused { IfErr result (IsAlgebraFail (lengths_of limits.now) (premises_of shown.now)
        (sides_for claim shown.now.extended.graph)
        (bytes_under (D.seen desk.old) name.now) (D.seen desk.old) (D.seen desk.new)) }
    ensures reads { ReadsCertificate slot.Algebra name.now (D.seen desk.old) (D.seen desk.new) }
{
    match desk.open_file(Slot::Algebra, name) {
        Ok(()) => judge_algebra(alloc, desk, limits, shown, claim, records),
        Err(_) => Err(AlgebraFail::Stopped(Stop::ReadFault)),
    }
}

// Whether what is left in the slot `Algebra` is one.
fn judge_algebra<D: Desk>(
    alloc: Global,
    desk: &mut D,
    limits: &Limits,
    shown: &Shown<'_>,
    claim: Claim,
    records: bool,
) -> Result<Closed, AlgebraFail>
    requires reads { (D.seen desk.old).reads slot.Algebra ≡ true }
    requires sized { IsSizedAs (profile_of claim.widths) shown.now.extended.graph }
    requires columns { Always shown.now.extended.gates (AgreeOnColumns shown.now.extended) }
    requires facts { All (IsClauseFact shown.now.extended.gates) shown.now.recorded.added }
    ensures lawful { OnOk result (IfSome ((D.seen desk.old).left slot.Algebra)
        (IsLawfulAlgebra (lengths_of limits.now) (premises_of shown.now)
        (sides_for claim shown.now.extended.graph))) }
    ensures vanishes { OnOk result (Always shown.now.extended.gates
        (λ σ. specification shown.now.extended (sides_for claim shown.now.extended.graph) σ ≡ 0)) }
    ensures recorded { records ≡ true → IfOk result
        (IsLawfulRecord (premises_of shown.now) (sides_for claim shown.now.extended.graph)) }
    ensures told { IfOk result (λ c. IfSome ((D.seen desk.old).left slot.Algebra)
        (λ bytes. IsRecordOf records shown.now.header.version (modulus shown.now.extended) bytes
        (lines_in c.record.terms c.record.lines.items) c.id c.lines)) }
    ensures refused { IfErr result (IsAlgebraFail (lengths_of limits.now) (premises_of shown.now)
        (sides_for claim shown.now.extended.graph)
        ((D.seen desk.old).left slot.Algebra) (D.seen desk.old) (D.seen desk.new)) }
    ensures only { ReadsOnly slot.Algebra (D.seen desk.old) (D.seen desk.new) }
    ensures tells { KeepsTelling (D.seen desk.old) (D.seen desk.new) }
{
    let file = match AlgebraFile::start(alloc, desk, shown.header.version, limits) {
        Ok(file) => file,
        Err(fail) => return Err(line_refused(1, fail)),
    };
    let operands = Operands::under(alloc, shown.extended.graph(), claim)?;
    let none = ClauseList::new(alloc);
    let added = imports(shown, &none);
    let checker = PacChecker::new(alloc, &shown.extended, &operands, added, records)?;
    judge(desk, file, checker, shown.extended.max())
}

// The clauses that the algebra may import.
fn imports<'s>(shown: &'s Shown<'_>, none: &'s ClauseList) -> &'s ClauseList
    requires { none.now ≡ [] }
    ensures { result.now ≡ importable shown.now.header.version shown.now.recorded.added }
{
    if shown.header.version == 1 {
        none
    } else {
        &shown.recorded.added
    }
}

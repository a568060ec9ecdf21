// The header of a certificate of version 3, line by line.
ghost use Rattle.std.specs.Prelude.{◌≡◌, ◌+◌, ◌≤◌, ◌<◌, ◌++◌, ◌∷◌, [], true, IfOk, IfErr, OnOk, length};
ghost use Rattle.graph_core.specs.declared.bounds.TheConstants.{MOST_VARIABLES};
ghost use Rattle.graph_core.specs.Graph.Extended.{without_cut};
ghost use Rattle.mv_desk.specs.Calls.{Reads};
ghost use Rattle.mv_desk.specs.declared.slot.Slot.TheVariants.{Clauses};
ghost use Rattle.mv_text.specs.CertificateFiles.{GoesOn, KeepsFile};
ghost use Rattle.mv_text.specs.LineReading.{FitsPiece};
ghost use Rattle.ripple_graft.specs.Beside.{AreGates, AreOutputs, IsBeside, IsOutput, with_gate, with_gates, with_output, with_outputs};
ghost use Rattle.drup_text.specs.ClauseTexts.{IsOutputLine};
ghost use Rattle.drup_text.specs.HeaderSteps.{ReadsHeaderPart, beside_part, line_part, listed_part, listing_part};
ghost use Rattle.drup_text.specs.LineTexts.{IsPairOf};
ghost use Rattle.drup_text.specs.Listings.{gate_listing, output_listing};

use crate::header::{next_number, next_pair};
use crate::header_reading::read_output;
use graph_core::{Graph, Lit, MOST_VARIABLES};
use mv_desk::{Desk, Slot};
use mv_text::{CertificateFile, LineFail};
use ripple_graft::{Beside, Extended, Outputs, Pairs};
use std::alloc::Global;

// The lines after the first one: gates beside the graph, and outputs.
pub(crate) fn beside<D: Desk>(
    alloc: Global,
    file: &mut CertificateFile,
    desk: &mut D,
    graph: &Graph,
) -> Result<Beside, LineFail>
    requires open { (D.seen desk.old).reads Clauses ≡ true }
    requires goes_on { GoesOn file.old }
    requires first { file.old.number ≡ 1 }
    ensures beside { ReadsHeaderPart (beside_part graph.now)
        file.old file.new (D.seen desk.old) (D.seen desk.new) result }
    ensures fits { IfOk result (IsBeside graph.now) }
    ensures keeps { KeepsFile file.old file.new result }
    ensures reads { Reads Clauses (D.seen desk.old) (D.seen desk.new) result }
{
    match gates(alloc, file, desk, graph) {
        Ok((extended, gates)) => match outputs(alloc, file, desk, extended) {
            Ok((_, outputs)) => {
                let gates = Pairs::from_vec(gates);
                let outputs = Outputs::from_vec(outputs);
                Ok(Beside { gates, outputs })
            }
            Err(fail) => Err(fail),
        },
        Err(fail) => Err(fail),
    }
}

// The number of gates, and they, with the graph that they make.
fn gates<'a, D: Desk>(
    alloc: Global,
    file: &mut CertificateFile,
    desk: &mut D,
    graph: &'a Graph,
) -> Result<(Extended<'a>, Vec<(Lit, Lit)>), LineFail>
    requires open { (D.seen desk.old).reads Clauses ≡ true }
    requires goes_on { GoesOn file.old }
    ensures gates { ReadsHeaderPart (listing_part gate_listing (without_cut graph.now))
        file.old file.new (D.seen desk.old) (D.seen desk.new) result }
    ensures few { IfOk result (λ r. length r.1.items ≤ MOST_VARIABLES) }
    ensures made { IfOk result (λ r. r.0 ≡ with_gates (without_cut graph.now) r.1.items) }
    ensures fits { IfOk result (λ r. AreGates (without_cut graph.now) r.1.items) }
    ensures keeps { KeepsFile file.old file.new result }
    ensures reads { Reads Clauses (D.seen desk.old) (D.seen desk.new) result }
{
    match next_number(alloc, file, desk, b"gates ", MOST_VARIABLES) {
        Ok(count) => counted_gates(alloc, file, desk, graph, count),
        Err(fail) => Err(fail),
    }
}

// So many gates.
fn counted_gates<'a, D: Desk>(
    alloc: Global,
    file: &mut CertificateFile,
    desk: &mut D,
    graph: &'a Graph,
    count: u32,
) -> Result<(Extended<'a>, Vec<(Lit, Lit)>), LineFail>
    requires open { (D.seen desk.old).reads Clauses ≡ true }
    requires goes_on { GoesOn file.old }
    requires piece { FitsPiece file.old.lines }
    requires few { count ≤ MOST_VARIABLES }
    ensures gates { ReadsHeaderPart (listed_part gate_listing (without_cut graph.now) count)
        file.old file.new (D.seen desk.old) (D.seen desk.new) result }
    ensures count { IfOk result (λ r. length r.1.items ≡ count) }
    ensures made { IfOk result (λ r. r.0 ≡ with_gates (without_cut graph.now) r.1.items) }
    ensures fits { IfOk result (λ r. AreGates (without_cut graph.now) r.1.items) }
    ensures keeps { KeepsFile file.old file.new result }
    ensures reads { Reads Clauses (D.seen desk.old) (D.seen desk.new) result }
{
    let mut extended = Extended::without_cut(graph);
    let mut gates = Vec::new(alloc);
    for _ in 0..count {
        let pair = match next_pair(alloc, file, desk, &extended) {
            Ok(pair) => pair,
            Err(fail) => return Err(fail),
        };
        extended = match file.settle(append_gate(alloc, extended, &mut gates, pair)) {
            Ok(longer) => longer,
            Err(fail) => return Err(fail),
        };
    }
    Ok((extended, gates))
}

// One gate more at the end, and the graph with it.
fn append_gate<'a>(
    alloc: Global,
    extended: Extended<'a>,
    gates: &mut Vec<(Lit, Lit)>,
    pair: (Lit, Lit),
) -> Result<Extended<'a>, LineFail>
    requires known { IsPairOf extended pair }
    requires room { extended.max < extended.graph.max + MOST_VARIABLES }
    ensures ok { IfOk result (λ e. e ≡ with_gate extended.entry pair) }
    ensures more { OnOk result (gates.new.items ≡ gates.old.items ++ pair ∷ []) }
    ensures err { IfErr result (λ fail. fail ≡ LineFail.Memory) }
{
    let next = match extended.with_gate(alloc, pair.0, pair.1) {
        Ok(next) => next,
        Err(_) => return Err(LineFail::Memory),
    };
    match gates.push(pair) {
        Ok(()) => Ok(next),
        Err(_) => Err(LineFail::Memory),
    }
}

// The number of outputs, and they, with the graph that they make.
fn outputs<'a, D: Desk>(
    alloc: Global,
    file: &mut CertificateFile,
    desk: &mut D,
    extended: Extended<'a>,
) -> Result<(Extended<'a>, Vec<(u32, Lit)>), LineFail>
    requires open { (D.seen desk.old).reads Clauses ≡ true }
    requires goes_on { GoesOn file.old }
    ensures outputs { ReadsHeaderPart (listing_part output_listing extended.entry)
        file.old file.new (D.seen desk.old) (D.seen desk.new) result }
    ensures fits { IfOk result (λ r. AreOutputs extended.entry r.1.items) }
    ensures keeps { KeepsFile file.old file.new result }
    ensures reads { Reads Clauses (D.seen desk.old) (D.seen desk.new) result }
{
    let most = extended.graph().outputs();
    match next_number(alloc, file, desk, b"replace ", most) {
        Ok(count) => counted_outputs(alloc, file, desk, extended, count),
        Err(fail) => Err(fail),
    }
}

// So many outputs.
fn counted_outputs<'a, D: Desk>(
    alloc: Global,
    file: &mut CertificateFile,
    desk: &mut D,
    extended: Extended<'a>,
    count: u32,
) -> Result<(Extended<'a>, Vec<(u32, Lit)>), LineFail>
    requires open { (D.seen desk.old).reads Clauses ≡ true }
    requires goes_on { GoesOn file.old }
    requires piece { FitsPiece file.old.lines }
    ensures outputs { ReadsHeaderPart (listed_part output_listing extended.entry count)
        file.old file.new (D.seen desk.old) (D.seen desk.new) result }
    ensures count { IfOk result (λ r. length r.1.items ≡ count) }
    ensures fits { IfOk result (λ r. AreOutputs extended.entry r.1.items) }
    ensures keeps { KeepsFile file.old file.new result }
    ensures reads { Reads Clauses (D.seen desk.old) (D.seen desk.new) result }
{
    let mut extended = extended;
    let mut outputs = Vec::new(alloc);
    for _ in 0..count {
        let output = match next_output(alloc, file, desk, &extended) {
            Ok(output) => output,
            Err(fail) => return Err(fail),
        };
        extended = match file.settle(append_output(alloc, extended, &mut outputs, output)) {
            Ok(longer) => longer,
            Err(fail) => return Err(fail),
        };
    }
    Ok((extended, outputs))
}

// The line of an output.
fn next_output<D: Desk>(
    alloc: Global,
    file: &mut CertificateFile,
    desk: &mut D,
    extended: &Extended<'_>,
) -> Result<(u32, Lit), LineFail>
    requires open { (D.seen desk.old).reads Clauses ≡ true }
    requires goes_on { GoesOn file.old }
    ensures output { ReadsHeaderPart (line_part IsOutputLine (IsOutput extended.now))
        file.old file.new (D.seen desk.old) (D.seen desk.new) result }
    ensures in_range { IfOk result (IsOutput extended.now) }
    ensures keeps { KeepsFile file.old file.new result }
    ensures reads { Reads Clauses (D.seen desk.old) (D.seen desk.new) result }
{
    match file.needed_line(alloc, desk, Slot::Clauses) {
        Ok(line) => file.settle(read_output(&line, extended)),
        Err(fail) => Err(fail),
    }
}

// One output more at the end, and the graph with it.
fn append_output<'a>(
    alloc: Global,
    extended: Extended<'a>,
    outputs: &mut Vec<(u32, Lit)>,
    output: (u32, Lit),
) -> Result<Extended<'a>, LineFail>
    requires { IsOutput extended output }
    ensures ok { IfOk result (λ e. e ≡ with_output extended.entry output) }
    ensures more { OnOk result (outputs.new.items ≡ outputs.old.items ++ output ∷ []) }
    ensures err { IfErr result (λ fail. fail ≡ LineFail.Memory) }
{
    let next = match extended.with_output(alloc, output.0, output.1) {
        Ok(next) => next,
        Err(_) => return Err(LineFail::Memory),
    };
    match outputs.push(output) {
        Ok(()) => Ok(next),
        Err(_) => Err(LineFail::Memory),
    }
}

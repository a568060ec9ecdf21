// The texts of reports on two graphs.
ghost use Rattle.std.specs.Prelude.{◌≡◌, ◌≤◌, ◌+◌, ◌++◌, [], ◌∷◌, codes, length, map, take};
ghost use Rattle.graph_core.specs.declared.bounds.TheConstants.{MOST_INPUTS};
ghost use Rattle.verdict_program.specs.Answer.{digit_of, input_digits, report_of_judged, report_of_same, shapes_line};
ghost use Rattle.verdict_program.specs.Stops.{line};

use crate::report::Report;
use crate::report_texts::clauses_report;
use crate::stop::stop_report;
use graph_core::MOST_INPUTS;
use same_core::{Same, SameChecked, SameRefusal};

/// The line that reports what `same` says.
pub fn same_report(outcome: &Same) -> Report
    ensures { result ≡ report_of_same outcome.now }
{
    match outcome {
        Same::Equal => Report::of("equal\n"),
        Same::Differs { inputs } => differs_report(inputs),
        Same::Spent { lemmas, .. } => Report::numbered(
            "undecided spent ",
            u128::from(*lemmas),
            "\n",
        ),
        Same::Shapes => shapes_report(),
        Same::Stopped(why) => stop_report(*why),
    }
}

/// The line that reports what `check-same` says.
pub fn judged_report(outcome: SameChecked) -> Report
    ensures { result ≡ report_of_judged outcome }
{
    match outcome {
        SameChecked::Accepted => Report::of("accepted\n"),
        SameChecked::Refused(SameRefusal::Clauses { line, why }) => clauses_report(line, why),
        SameChecked::Refused(SameRefusal::Goals { output }) => Report::numbered(
            "refused goals output ",
            u128::from(output),
            "\n",
        ),
        SameChecked::Shapes => shapes_report(),
        SameChecked::Stopped(why) => stop_report(why),
    }
}

fn shapes_report() -> Report
    ensures { result ≡ shapes_line }
{
    Report::of("shapes differ\n")
}

// The inputs on which two graphs differ, the first one first.
fn differs_report(inputs: &[bool]) -> Report
    ensures { result ≡ codes "differs input=" ++ input_digits inputs.now ++ line [] }
{
    let mut report = Report::of("differs input=");
    push_bits(&mut report, front(inputs, MOST_INPUTS));
    report.push("\n");
    report
}

// The first of some bits, as many as there may be.
fn front(bits: &[bool], most: usize) -> &[bool]
    ensures front { result.now ≡ take most bits.now }
    ensures few { length result.now ≤ most }
{
    if bits.len() <= most {
        bits
    } else {
        &bits[..most]
    }
}

fn push_bits(report: &mut Report, bits: &[bool])
    requires few { length bits.now ≤ MOST_INPUTS }
    requires room { length report.old ≤ 128 }
    ensures text { report.new ≡ report.old ++ map digit_of bits.now }
    ensures short { length report.new ≤ length report.old + MOST_INPUTS }
{
    for bit in bits {
        report.push(digit(*bit));
    }
}

fn digit(bit: bool) -> &'static str
    ensures text { result.now ≡ digit_of bit ∷ [] }
    ensures short { length result.now ≡ 1 }
{
    if bit { "1" } else { "0" }
}

// The texts of reports on a graph that is refused.
ghost use Rattle.std.specs.Prelude.{◌≡◌, ◌≤◌, ◌++◌, length};
ghost use Rattle.verdict_program.specs.Stops.{about_literal, letter_of, report_of_fault, report_of_graph};
ghost use Rattle.aiger_reader.specs.declared.fail.ReadFail.TheVariants as fail;
ghost use Rattle.graph_core.specs.declared.fault.GraphFault.TheVariants as fault;

use crate::report::Report;
use aiger_reader::ReadFail;
use graph_core::{Field, GraphFault, Lit};

/// The line that reports why a file spells no graph.
pub fn graph_report(why: ReadFail) -> Report
    ensures text { result ≡ report_of_graph why }
    ensures short { length result ≤ 200 }
{
    match why {
        ReadFail::Text(byte) => Report::numbered(
            "graph refused at byte ",
            u128::from(byte),
            ": text\n",
        ),
        ReadFail::Header(field) => header_report(field),
        ReadFail::Graph(fault) => fault_report(fault),
        // A failed read, a length and out of memory are answers of their own.
        _ => Report::new(),
    }
}

fn header_report(field: Field) -> Report
    ensures text { result ≡ report_of_graph (fail.Header field) }
    ensures short { length result ≤ 200 }
{
    let mut report = Report::of("graph refused: header ");
    report.push(letter(field));
    report.push("\n");
    report
}

fn letter(field: Field) -> &'static str
    ensures { result.now ≡ letter_of field }
{
    match field {
        Field::M => "M",
        Field::I => "I",
        Field::L => "L",
        Field::O => "O",
        Field::A => "A",
        Field::B => "B",
        Field::C => "C",
        Field::J => "J",
        Field::F => "F",
    }
}

fn fault_report(fault: GraphFault) -> Report
    ensures text { result ≡ report_of_fault fault }
    ensures short { length result ≤ 200 }
{
    match fault {
        GraphFault::Range(lit) => literal_report(lit, " out of range\n"),
        GraphFault::Left(lit) => literal_report(lit, " is no left side\n"),
        GraphFault::Twice(v) => variable_report(v),
        GraphFault::Undefined(lit) => literal_report(lit, " undefined\n"),
        GraphFault::Cycle(v) => Report::numbered(
            "graph refused: cycle at variable ",
            u128::from(v),
            "\n",
        ),
    }
}

fn literal_report(lit: Lit, cause: &str) -> Report
    requires { length cause.now ≤ 64 }
    ensures text { result ≡ about_literal lit ++ cause.now }
    ensures short { length result ≤ 200 }
{
    Report::numbered("graph refused: literal ", u128::from(lit.0), cause)
}

fn variable_report(v: u32) -> Report
    ensures text { result ≡ report_of_fault (fault.Twice v) }
    ensures short { length result ≤ 200 }
{
    Report::numbered(
        "graph refused: variable ",
        u128::from(v),
        " defined twice\n",
    )
}

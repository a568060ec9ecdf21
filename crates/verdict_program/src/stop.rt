// The report and the status of what all commands have in common: why one has no answer of its own.
ghost use Rattle.std.specs.Prelude.{◌≡◌, ◌≤◌, length};
ghost use Rattle.command_core.specs.declared.stop.Stop.TheVariants as stop;
ghost use Rattle.verdict_program.specs.Stops.{name_of_slot, prefix_of, report_of_stop, status_of_stop};

use crate::graph_texts::graph_report;
use crate::report::Report;
use aiger_reader::ReadFail;
use command_core::Stop;
use mv_desk::Slot;

/// The line that reports it.
pub fn stop_report(why: Stop) -> Report
    ensures text { result ≡ report_of_stop why }
    ensures short { length result ≤ 256 }
{
    match why {
        Stop::Graph { slot, why } => refused_report(slot, why),
        Stop::ReadFault => Report::of("read fault\n"),
        Stop::WriteFault => Report::of("write fault\n"),
        Stop::Memory => Report::of("want of memory\n"),
        Stop::TooLong(slot) => long_report(slot),
    }
}

/// The exit status.
pub fn stop_status(why: Stop) -> u8
    ensures { result ≡ status_of_stop why }
{
    match why {
        Stop::Graph { .. } => 4,
        Stop::ReadFault => 6,
        Stop::WriteFault => 7,
        Stop::Memory => 8,
        Stop::TooLong(_) => 9,
    }
}

fn refused_report(slot: Slot, why: ReadFail) -> Report
    ensures text { result ≡ report_of_stop (stop.Graph slot why) }
    ensures short { length result ≤ 256 }
{
    let mut report = Report::of(prefix(slot));
    report.push_report(&graph_report(why));
    report
}

fn prefix(slot: Slot) -> &'static str
    ensures text { result.now ≡ prefix_of slot }
    ensures short { length result.now ≤ 8 }
{
    match slot {
        Slot::Other => "other ",
        _ => "",
    }
}

fn long_report(slot: Slot) -> Report
    ensures text { result ≡ report_of_stop (stop.TooLong slot) }
    ensures short { length result ≤ 256 }
{
    let mut report = Report::of("too long: ");
    report.push(slot_name(slot));
    report.push("\n");
    report
}

fn slot_name(slot: Slot) -> &'static str
    ensures text { result.now ≡ name_of_slot slot }
    ensures short { length result.now ≤ 8 }
{
    match slot {
        Slot::Graph => "graph",
        Slot::Other => "other",
        Slot::Clauses => "clauses",
        Slot::Algebra => "algebra",
        Slot::Report => "report",
    }
}

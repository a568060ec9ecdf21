// The texts of reports on a pair of certificates that was trimmed.
ghost use Rattle.std.specs.Prelude.{◌≡◌};
ghost use Rattle.verdict_program.specs.Answer.{report_of_trim, trimmed_line};

use crate::report::Report;
use crate::report_texts::refusal_report;
use crate::stop::stop_report;
use pair_trim::TrimAnswer;

/// The line that reports what `trim` says.
pub fn trim_report(outcome: &TrimAnswer) -> Report
    ensures { result ≡ report_of_trim outcome.now }
{
    match outcome {
        TrimAnswer::Trimmed(kept) => trimmed_report(
            kept.pair.clauses.len(),
            kept.of_clauses,
            kept.pair.algebra.len(),
            kept.of_algebra,
        ),
        TrimAnswer::Refused(why) => refusal_report(*why),
        TrimAnswer::Stopped(why) => stop_report(*why),
    }
}

// How many lines of each certificate were kept, and of how many.
fn trimmed_report(clauses: usize, of_clauses: u64, algebra: usize, of_algebra: u64) -> Report
    ensures { result ≡ trimmed_line clauses of_clauses algebra of_algebra }
{
    let mut report = Report::numbered("trimmed clauses ", clauses as u128, " of ");
    report.push_number(u128::from(of_clauses));
    report.push_numbered(" algebra ", algebra as u128);
    report.push_numbered(" of ", u128::from(of_algebra));
    report.push("\n");
    report
}

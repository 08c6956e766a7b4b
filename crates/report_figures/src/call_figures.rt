// A report with a call of a pass that was made.
ghost use Rattle.std.specs.Prelude.{◌≡◌, nat_lt};
ghost use Rattle.report.specs.Report.{sum64, max_runs, added_by};
ghost use Rattle.refusals.specs.Answers.{answer_of};
ghost use Rattle.checks.specs.Passes.{pass_number};
ghost use Rattle.laws.specs.ListLaws.FlatRows.{rows_held};
ghost use Rattle.report_figures.specs.Forms.{report_form, HeldOnMap};
ghost use Rattle.report_figures.specs.Calls.{call_run, kept_run, CallLeft, ReportedCall};

use crate::row_lengths::{count_unnamed, squared_lengths};
use crate::sums::{with_accepted, with_refused};
use crate::{Figures, Report, Reported};
use checks::passes::Pass;
use definitions::limits::NUMBERS_PER_ROW;
use refusals::answers::Answer;
use refusals::{Cause, Refusal};

const MAX_RUNS: u64 = 10_000;

// The call of a map of `count` boundaries kept these rows.
fn with_kept(report: Report, pass: Pass, rows: &[[u64; NUMBERS_PER_ROW]], count: usize) -> Report
    requires { HeldOnMap rows.now }
    ensures { report_form result ≡ added_by sum64 (report_form report) (kept_run (pass_number pass) count (rows_held rows.now)) }
{
    let run = Figures {
        accepted: 1,
        boundaries: count as u64,
        kept: rows.len() as u64,
        removed: count_unnamed(rows, count),
    };
    with_accepted(report, pass, run, squared_lengths(rows))
}

// The call answered with this number, of a map of `count` boundaries; accepted, it left `value` rows in the output.
pub fn with_call(
    report: Report,
    pass: u64,
    number: u64,
    value: u64,
    count: usize,
    output: &[u64],
) -> Report
    requires { CallLeft pass number value output.now }
    ensures { report_form result ≡ added_by sum64 (report_form report) (call_run pass number value count output.now) }
{
    if number != 0 {
        return with_refused(report, number);
    }
    let (rows, _) = output.as_chunks::<NUMBERS_PER_ROW>();
    let kept = &rows[..value as usize];
    // Kept: the callers have the pass as a number only; that the call was accepted says that it names one.
    with_kept(report, Pass::try_from(pass).unwrap(), kept, count)
}

// Whether a run may be added.
pub fn has_room(report: Report) -> bool
    ensures { result ≡ nat_lt report.runs max_runs }
{
    report.runs < MAX_RUNS
}

// A run beyond the last is refused as 3 and changes nothing.
pub fn beyond(report: Report) -> Reported
    ensures { result ≡ record { number = 3; value = 0; report = report } }
{
    Reported::new(Answer::from(Cause::Entries), report)
}

// The answer of a call, and the report with it.
pub fn answered(
    report: Report,
    pass: u64,
    kept: Result<usize, Refusal>,
    count: usize,
    output: &[u64],
) -> Reported
    requires { CallLeft pass (answer_of kept).number (answer_of kept).value output.now }
    ensures { ReportedCall (report_form report) pass (answer_of kept).number (answer_of kept).value count output.now result }
{
    let answer = Answer::from(kept);
    let added = with_call(report, pass, answer.number, answer.value, count, output);
    Reported::new(answer, added)
}

// A sheet that is read and run as `keptlist` does it, and added to a report (SPECIFICATION 19.8).

#![tactic(auto)]

ghost use Rattle.report.specs.Runs.{sheet_reading};
ghost use Rattle.report_figures.specs.Forms.{report_form};
ghost use Rattle.report_sheets.specs.Contract.{AddedReading, SheetReported};

use refusals::answers::Answer;
use report_figures::call_figures::{answered, beyond, has_room};
use report_figures::sums::with_refused;
use report_figures::{Report, Reported};
use sheet_answer::runs::{ROWS_ROOM, run_sheet};

// Reads and runs the sheet of these bytes, and adds what it is answered.
fn add_sheet(report: Report, bytes: &[u8]) -> Reported
    ensures { AddedReading (report_form report) (sheet_reading bytes.now) result }
{
    let mut output = [0u64; ROWS_ROOM];
    match run_sheet(bytes, &mut output) {
        Ok(run) => answered(report, run.pass, Ok(run.kept), run.boundaries, &output),
        Err(refusal) => Reported::new(
            Answer::from(refusal),
            with_refused(report, refusal.cause.number()),
        ),
    }
}

// A sheet of these bytes, read and run with what `keptlist` lends, is added to the report. A run beyond the last is refused before anything is read.
pub fn report_sheets_report_sheet(report: Report, bytes: &[u8]) -> Reported
    ensures { SheetReported (report_form report) bytes.now result }
{
    if has_room(report) {
        add_sheet(report, bytes)
    } else {
        beyond(report)
    }
}

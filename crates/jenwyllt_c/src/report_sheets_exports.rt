// What `report_sheets` exports to C.

ghost use Rattle.report_figures.specs.Forms.{report_form};
ghost use Rattle.report_sheets.specs.Contract.{SheetReported};

use report_figures::{Report, Reported};

// A sheet of these bytes, read and run with what `keptlist` lends, is added to the report. A run beyond the last is refused before anything is read.
#[unsafe(no_mangle)]
pub extern "C" fn jenwyllt_report_sheet(report: Report, bytes: &[u8]) -> Reported
    ensures { SheetReported (report_form report) bytes.now result }
{
    report_sheets::report_sheets_report_sheet(report, bytes)
}

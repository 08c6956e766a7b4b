// What `report_figures` exports to C.

ghost use Rattle.std.specs.Prelude.{◌≡◌};
ghost use Rattle.report.specs.Report.{empty_report, mean_kept};
ghost use Rattle.report_figures.specs.Forms.{report_form, mean_form};

use report_figures::{Mean, Report};

// A report starts empty.
#[unsafe(no_mangle)]
pub extern "C" fn jenwyllt_empty_report() -> Report
    ensures { report_form result ≡ empty_report }
{
    report_figures::report_figures_empty_report()
}

// The mean kept for an accepted run of a pass; there is none where no run of it was accepted, and none for a pass that is not 1, 2 or 3.
#[unsafe(no_mangle)]
pub extern "C" fn jenwyllt_mean_kept(report: Report, pass: u64) -> Mean
    ensures { result ≡ mean_form (mean_kept (report_form report) pass) }
{
    report_figures::report_figures_mean_kept(report, pass)
}

// A report with a run more. A report may hold any numbers, so that sums are modulo 2^64; of one that operations made from the empty report none wraps.
ghost use Rattle.std.specs.Prelude.{◌≡◌};
ghost use Rattle.report.specs.Runs.{refused_run, accepted_run};
ghost use Rattle.report.specs.Report.{sum64, count_at, with_figures, added_by};
ghost use Rattle.checks.specs.Passes.{pass_number};
ghost use Rattle.report_figures.specs.Forms.{figures_form, report_form};

use crate::{Figures, REFUSAL_NUMBERS, Report};
use checks::passes::Pass;

// One more at a place; a list without that place stays as it is.
fn count_at(counts: [u64; REFUSAL_NUMBERS], number: u64) -> [u64; REFUSAL_NUMBERS]
    ensures { result ≡ count_at sum64 number counts }
{
    let mut counted = counts;
    if number < REFUSAL_NUMBERS as u64 {
        counted[number as usize] = counts[number as usize].wrapping_add(1);
    }
    counted
}

pub fn with_refused(report: Report, number: u64) -> Report
    ensures { report_form result ≡ added_by sum64 (report_form report) (refused_run number) }
{
    let mut added = report;
    added.runs = report.runs.wrapping_add(1);
    added.refused = count_at(report.refused, number);
    added
}

fn with_figures(figures: Figures, run: Figures) -> Figures
    ensures { figures_form result ≡ with_figures sum64 (figures_form figures) (figures_form run) }
{
    Figures {
        accepted: figures.accepted.wrapping_add(run.accepted),
        boundaries: figures.boundaries.wrapping_add(run.boundaries),
        kept: figures.kept.wrapping_add(run.kept),
        removed: figures.removed.wrapping_add(run.removed),
    }
}

pub fn with_accepted(report: Report, pass: Pass, run: Figures, squared: u64) -> Report
    ensures { report_form result
        ≡ added_by sum64 (report_form report) (accepted_run (pass_number pass) (figures_form run) squared) }
{
    let mut added = report;
    added.runs = report.runs.wrapping_add(1);
    added.squared = report.squared.wrapping_add(squared);
    match pass {
        Pass::ReplaceRampMouths => {
            added.pass_1 = with_figures(report.pass_1, run);
        }
        Pass::CollapseRampInteriors => {
            added.pass_2 = with_figures(report.pass_2, run);
        }
        Pass::RemoveJunctionBoundaries => {
            added.pass_3 = with_figures(report.pass_3, run);
        }
    }
    added
}

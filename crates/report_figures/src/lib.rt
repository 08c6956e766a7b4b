// The figures of a report (SPECIFICATION 19.8), by value: what the rows of an accepted run add, a report with a run more, and the mean of a pass.

#![tactic(auto)]

pub mod call_figures;
pub mod row_lengths;
pub mod sums;

ghost use Rattle.std.specs.Prelude.{◌≡◌};
ghost use Rattle.report.specs.Report.{empty_report, mean_of, mean_kept};
ghost use Rattle.report_figures.specs.Forms.{report_form, mean_in, mean_form};

use checks::passes::Pass;
use refusals::answers::Answer;

// How many refusals are counted by number: 1 to 24, and a count for 0 that stays as it is.
pub const REFUSAL_NUMBERS: usize = 25;

// Of accepted runs of a pass: how many they are, and of these the boundaries in, kept and removed.
#[repr(C)]
#[derive(Clone, Copy, Default)]
pub struct Figures {
    pub accepted: u64,
    pub boundaries: u64,
    pub kept: u64,
    pub removed: u64,
}

// All runs, refused ones by their number, the figures of each pass, and the total of squared lengths of kept rows in square pixels.
#[repr(C)]
#[derive(Clone, Copy, Default)]
pub struct Report {
    pub runs: u64,
    pub refused: [u64; REFUSAL_NUMBERS],
    pub pass_1: Figures,
    pub pass_2: Figures,
    pub pass_3: Figures,
    pub squared: u64,
}

// What an operation answers that adds a run: number 0 and the count of rows kept, or the refusal's number and place; and the report.
#[repr(C)]
#[derive(Clone, Copy)]
pub struct Reported {
    pub number: u64,
    pub value: u64,
    pub report: Report,
}

impl Reported {
    // The answer, and the report with the run.
    pub fn new(answer: Answer, report: Report) -> Reported
        ensures { result ≡ record { number = answer.number; value = answer.value; report = report } }
    {
        Reported {
            number: answer.number,
            value: answer.value,
            report,
        }
    }
}

// A report starts empty.
pub fn report_figures_empty_report() -> Report
    ensures { report_form result ≡ empty_report }
{
    Report::default()
}

// Quotient and remainder are 0 where there is no mean.
// Kept: a flag beside the values, since C takes no Option.
#[repr(C)]
#[derive(Clone, Copy)]
pub struct Mean {
    pub has_mean: bool,
    pub quotient: u64,
    pub remainder: u64,
}

impl From<Option<(u64, u64)>> for Mean {
    ghost from_gives = { λ given mean. mean ≡ mean_form (mean_in given) };

    fn from(given: Option<(u64, u64)>) -> Mean {
        match given {
            Some((quotient, remainder)) => Mean {
                has_mean: true,
                quotient,
                remainder,
            },
            None => Mean {
                has_mean: false,
                quotient: 0,
                remainder: 0,
            },
        }
    }
}

// The mean kept for an accepted run, as quotient and remainder.
fn mean_of(figures: Figures) -> Option<(u64, u64)>
    ensures { mean_in result ≡ mean_of figures.accepted figures.kept }
{
    if figures.accepted == 0 {
        return None;
    }
    Some((
        figures.kept / figures.accepted,
        figures.kept % figures.accepted,
    ))
}

// There is none where no run of the pass was accepted, and none for a pass that is not 1, 2 or 3.
pub fn report_figures_mean_kept(report: Report, pass: u64) -> Mean
    ensures { result ≡ mean_form (mean_kept (report_form report) pass) }
{
    Mean::from(match Pass::try_from(pass) {
        Err(_) => None,
        Ok(Pass::ReplaceRampMouths) => mean_of(report.pass_1),
        Ok(Pass::CollapseRampInteriors) => mean_of(report.pass_2),
        Ok(Pass::RemoveJunctionBoundaries) => mean_of(report.pass_3),
    })
}

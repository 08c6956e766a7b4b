// A sheet that is read for a report (SPECIFICATION 19.8), of any size or with the limits of `keptlist`. One of any size that is refused is a run that was
// refused, and is added; the run of one that was read is the call, which is yet to be made.

#![tactic(auto)]

ghost use Rattle.std.specs.Prelude.{◌≡◌, length};
ghost use Rattle.definitions.specs.Sheet.{read_verdict};
ghost use Rattle.sheet.specs.Contract.{Answered, by_number};
ghost use Rattle.report_reading.specs.Contract.{opened_with, limited_reading, OpenedFor, ReadFor};

use refusals::{Cause, Refusal};
use report_figures::Report;
use report_figures::call_figures::has_room;
use report_figures::sums::with_refused;
use sheet::{CELLS_MOST, Header, SHEET_BYTES_MOST, read_sheet, read_within};

// Number 0, place 0 and what the sheet opens with; or a refusal's number and place, and 0 for the rest. The last three before the report are counts of entries.
#[repr(C)]
#[derive(Clone, Copy, Default)]
pub struct Opened {
    pub number: u64,
    pub place: u64,
    pub pass: u64,
    pub width: u64,
    pub height: u64,
    pub spans: u64,
    pub boundaries: u64,
    pub anchors: u64,
    pub report: Report,
}

impl Opened {
    fn new(report: Report, answer: Result<Header, Refusal>) -> Opened
        ensures { result ≡ opened_with report (by_number answer) }
    {
        match answer {
            Ok(header) => Opened {
                number: 0,
                place: 0,
                pass: header.pass,
                width: header.width as u64,
                height: header.height as u64,
                spans: header.spans as u64,
                boundaries: header.boundaries as u64,
                anchors: header.anchors as u64,
                report,
            },
            Err(refusal) => Opened {
                number: refusal.cause.number(),
                place: refusal.place as u64,
                report,
                ..Opened::default()
            },
        }
    }
}

// What the reader answered, and the report with the run, if it was refused.
fn opened_for(report: Report, answer: Result<Header, Refusal>) -> Opened
    ensures { OpenedFor report answer result }
{
    let added = match answer {
        Ok(_) => report,
        Err(refusal) => with_refused(report, refusal.cause.number()),
    };
    Opened::new(added, answer)
}

// Reads a sheet with the limits of `keptlist`: the bytes are counted before any of them is judged.
pub fn read_limited(
    bytes: &[u8],
    cells: &mut [u8],
    spans: &mut [u64],
    boundaries: &mut [u64],
    anchors: &mut [u64],
) -> Result<Header, Refusal>
    ensures { Answered
        (limited_reading bytes.now cells.old spans.old boundaries.old anchors.old)
        cells.old spans.old boundaries.old anchors.old result
        cells.new spans.new boundaries.new anchors.new }
{
    if SHEET_BYTES_MOST < bytes.len() {
        return Err(Refusal {
            cause: Cause::Sheet,
            place: SHEET_BYTES_MOST,
        });
    }
    read_within(bytes, CELLS_MOST, cells, spans, boundaries, anchors)
}

// Reads a sheet into the lists. A run beyond the last is refused before anything is read, and every list is then as it was.
pub fn report_reading_read_for_report(
    report: Report,
    bytes: &[u8],
    cells: &mut [u8],
    spans: &mut [u64],
    boundaries: &mut [u64],
    anchors: &mut [u64],
) -> Opened
    ensures { ReadFor report
        (read_verdict bytes.now
        (length cells.old) (length spans.old) (length boundaries.old) (length anchors.old))
        cells.old spans.old boundaries.old anchors.old result
        cells.new spans.new boundaries.new anchors.new }
{
    if has_room(report) {
        let answer = read_sheet(bytes, cells, spans, boundaries, anchors);
        opened_for(report, answer)
    } else {
        let full = Refusal {
            cause: Cause::Entries,
            place: 0,
        };
        Opened::new(report, Err(full))
    }
}

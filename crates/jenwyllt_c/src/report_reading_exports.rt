// What `report_reading` exports to C.

ghost use Rattle.std.specs.Prelude.{length};
ghost use Rattle.definitions.specs.Sheet.{read_verdict};
ghost use Rattle.report_reading.specs.Contract.{ReadFor};

use report_figures::Report;
use report_reading::Opened;

// Reads a sheet into the lists. A run beyond the last is refused before anything is read, and every list is then as it was.
#[unsafe(no_mangle)]
pub extern "C" fn jenwyllt_read_for_report(
    report: Report,
    bytes: &[u8],
    cells: &mut [u8],
    spans: &mut [u64],
    boundaries: &mut [u64],
    anchors: &mut [u64],
) -> Opened
    ensures { ReadFor report
        (read_verdict bytes.now
        (length cells.old) (length spans.old) (length boundaries.old) (length anchors.old))
        cells.old spans.old boundaries.old anchors.old result
        cells.new spans.new boundaries.new anchors.new }
{
    report_reading::report_reading_read_for_report(report, bytes, cells, spans, boundaries, anchors)
}

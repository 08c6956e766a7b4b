// The call that runs a pass, made and added to a report.
ghost use Rattle.report_figures.specs.Forms.{report_form};
ghost use Rattle.areas.specs.Lists.{of_lists, SameLists};
ghost use Rattle.call_partition.specs.Asking.{of_asked};
ghost use Rattle.topology.specs.Lent.{lends, leaves};
ghost use Rattle.topology.specs.Reports.{ReportedOver};

use crate::topology_kept_boundaries;
use areas::lists::PartitionLists;
use call_partition::asked::Asked;
use context::Region;
use definitions::limits::NUMBERS_PER_BOUNDARY;
use report_figures::call_figures::{answered, beyond, has_room};
use report_figures::{Report, Reported};

// Makes the call and adds what it answered. A run beyond the last is refused before anything else, and every list is then as it was.
pub fn topology_report_run(
    report: Report,
    pass: u64,
    asked: Asked,
    lists: &mut PartitionLists,
    records: &mut [Region],
    output: &mut [u64],
) -> Reported
    ensures reported { ReportedOver (report_form report) pass (of_lists (of_asked lends asked.entry) lists.old records.old output.old) result
        (of_lists leaves lists.new records.new output.new) }
    ensures same { SameLists lists.old lists.new }
{
    if has_room(report) {
        let kept = topology_kept_boundaries(pass, asked, lists, records, output);
        let count = asked.boundaries.len() / NUMBERS_PER_BOUNDARY;
        answered(report, pass, kept, count, output)
    } else {
        beyond(report)
    }
}

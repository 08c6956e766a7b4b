// The call with records of its own, for callers that lend plain lists alone.
ghost use Rattle.refusals.specs.Answers.{answer_of};
ghost use Rattle.areas.specs.Lists.{of_lists, SameLists};
ghost use Rattle.call_partition.specs.Asking.{of_asked};
ghost use Rattle.topology.specs.Contract.{lends_here, leaves_here, RanHere};

use crate::numbers::{RECORDS_HERE, put_records};
use crate::topology_kept_boundaries;
use areas::lists::PartitionLists;
use call_partition::asked::Asked;
use context::Region;
use refusals::Refusal;

// The call with `room` records, at most 512. They are empty at entry and, as far as there is room, written in numbers at the end.
pub fn kept_boundaries_here(
    pass: u64,
    asked: Asked,
    lists: &mut PartitionLists,
    room: usize,
    output: &mut [u64],
    numbers: &mut [u64],
) -> Result<usize, Refusal>
    ensures ran { RanHere pass (of_lists (of_asked lends_here asked.entry) lists.old room output.old numbers.old) (answer_of result)
        (of_lists leaves_here lists.new output.new numbers.new) }
    ensures same { SameLists lists.old lists.new }
{
    let lent = room.min(RECORDS_HERE);
    let mut records = [Region::empty(); RECORDS_HERE];
    let answer = topology_kept_boundaries(pass, asked, lists, &mut records[..lent], output);
    put_records(&records[..lent], numbers);
    answer
}

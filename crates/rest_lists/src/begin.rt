// A run to rest before its first pass.
ghost use Rattle.std.specs.Prelude.{◌*◌, ◌≤◌, length};
ghost use Rattle.definitions.specs.Limits.{max_entries, numbers_per_span, numbers_per_boundary};
ghost use Rattle.areas.specs.Lists.{of_lists, SameLists};
ghost use Rattle.call_partition.specs.Asking.{of_asked};
ghost use Rattle.rest_lists.specs.Begun.{BegunAs};
ghost use Rattle.rest_lists.specs.Together.{SameKept};

use crate::checked::rest_checks;
use crate::kept::KeptLists;
use areas::lists::PartitionLists;
use boundary_blocks::start::start_lists;
use call_partition::asked::Asked;
use call_partition::{Ready, divide};
use definitions::limits::{NUMBERS_PER_BOUNDARY, NUMBERS_PER_SPAN};
use refusals::Refusal;

// The checks of the lists as lent, the starting list in row order, and its partition: a refusal, or how many regions and rows of pairs there are.
// Never put into its caller: the rows that are sorted here, 20 KiB in two lists, would stand on the stack beside the lists of each pass.
#[inline(never)]
pub fn begin_rest(
    asked: Asked,
    room: usize,
    output: usize,
    lists: &mut PartitionLists,
    kept: &mut KeptLists,
) -> Result<Ready, Refusal>
    requires { (max_entries ≤ length kept.old.numbers.now) × (numbers_per_span * max_entries ≤ length kept.old.spans.now)
        × (numbers_per_boundary * max_entries ≤ length kept.old.boundaries.now) }
    ensures begun { of_lists (of_lists (of_asked BegunAs asked.entry room output) lists.old result) lists.new
        kept.new.numbers.now kept.new.spans.now kept.new.boundaries.now }
    ensures same { SameLists lists.old lists.new }
    ensures same_kept { SameKept kept.old kept.new }
{
    rest_checks(
        asked,
        lists.labels.len(),
        lists.masks.len(),
        lists.queue.len(),
        lists.tallies.len(),
        output,
    )?;
    let count = asked.boundaries.len() / NUMBERS_PER_BOUNDARY;
    start_lists(
        asked.boundaries,
        count,
        kept.numbers,
        kept.spans,
        kept.boundaries,
    );
    let end = NUMBERS_PER_SPAN * count;
    divide(asked.grid(), &kept.ends()[..end], room, lists)
}

// The checks of a run to rest before its first pass, in their order: 1 to 3, 16, and 5 to 10.
ghost use Rattle.std.specs.Prelude.{◌≡◌};
ghost use Rattle.refusals.specs.Refusals.{refusal_in};
ghost use Rattle.call_partition.specs.Asking.{of_asked};
ghost use Rattle.rest_lists.specs.Early.{rest_early};

use crate::lists::lists_fault;
use call_partition::asked::Asked;
use call_partition::checked::{check_entries_and_room, check_whole};
use refusals::{Cause, Refusal, no_fault};

// Of the lists that are filled, only the lengths matter. No pass is asked for.
pub fn rest_checks(
    asked: Asked,
    labels: usize,
    masks: usize,
    queue: usize,
    tallies: usize,
    output: usize,
) -> Result<(), Refusal>
    ensures { refusal_in result ≡ of_asked rest_early asked.entry labels masks queue tallies output }
{
    check_whole(asked)?;
    no_fault(lists_fault(asked.spans, asked.boundaries), Cause::Lists)?;
    check_entries_and_room(asked, labels, masks, queue, tallies, output)
}

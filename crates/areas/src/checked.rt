// The checks that come before the partition, in the order of the table of SPECIFICATION 4: 1, 2, 3, 5 and 6, 10.
ghost use Rattle.std.specs.Prelude.{◌≡◌};
ghost use Rattle.refusals.specs.Refusals.{refusal_in};
ghost use Rattle.areas.specs.Contract.{early_refusal};

use checks::sizes::{cells_fit, is_whole, partition_has_room, sides_fit};
use checks::spans::spans_fault;
use definitions::limits::NUMBERS_PER_SPAN;
use refusals::{Cause, Refusal, ensure};

// Of the lists that are filled, only the lengths matter.
pub fn checks_before(
    width: u64,
    height: u64,
    cells: &[u8],
    spans: &[u64],
    labels: usize,
    masks: usize,
    queue: usize,
    tallies: usize,
) -> Result<(), Refusal>
    ensures { refusal_in result ≡ early_refusal width height cells.now spans.now labels masks queue tallies }
{
    ensure(sides_fit(width, height), Cause::Sides)?;
    ensure(cells_fit(width, height, cells), Cause::Cells)?;
    ensure(is_whole(NUMBERS_PER_SPAN, spans.len()), Cause::Entries)?;
    spans_fault(width, height, spans)?;
    let count = spans.len() / NUMBERS_PER_SPAN;
    let room = partition_has_room(cells.len(), count, labels, masks, queue, tallies);
    ensure(room, Cause::Room)
}

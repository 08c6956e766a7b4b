// What comes before the records that both desks share: the checks of the shared lists, labels, tallies and pairs. The boundaries and anchors of neither desk
// are looked at.
ghost use Rattle.areas.specs.Lists.{of_lists, SameLists};
ghost use Rattle.desk_checks.specs.Shared.{SharedAs};

use areas::lists::PartitionLists;
use call_partition::asked::Asked;
use call_partition::{Ready, prepare_lists};
use refusals::Refusal;

// As the call with no boundaries, no anchors and no output has it, whatever pass it asks for; `room` records are lent.
pub fn prepare_shared(
    width: u64,
    height: u64,
    cells: &[u8],
    spans: &[u64],
    room: usize,
    lists: &mut PartitionLists,
) -> Result<Ready, Refusal>
    ensures shared { of_lists (of_lists (SharedAs width height cells.now spans.now room) lists.old result) lists.new }
    ensures same { SameLists lists.old lists.new }
{
    let asked = Asked {
        width,
        height,
        cells,
        spans,
        boundaries: &[],
        anchors: &[],
    };
    prepare_lists(asked, room, 0, lists)
}

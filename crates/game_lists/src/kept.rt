// The partition by what a pass keeps, over the lists that the first partition filled.
ghost use Rattle.std.specs.Prelude.{◌≡◌, ◌*◌, ◌/◌, ◌≤◌, length, take};
ghost use Rattle.definitions.specs.Limits.{max_entries, numbers_per_span};
ghost use Rattle.boundary_blocks.specs.Blocks.{left_blocks, left_count};
ghost use Rattle.areas.specs.Lists.{of_lists, SameLists};
ghost use Rattle.game_lists.specs.Kept.{Source, lent_of, Divides, DividedKept};

use areas::lists::PartitionLists;
use boundary_blocks::blocks::{copy_block, keep_blocks};
use call_partition::{Ready, redivide};
use definitions::limits::{MAX_ENTRIES, NUMBERS_PER_PAIR, NUMBERS_PER_SPAN, TALLIES_PER_SPAN};
use grid_steps::grid::TerrainGrid;

// The spans that are not removed, in list order, and how many there are.
fn kept_spans(spans: &[u64], removed: &[bool; MAX_ENTRIES], kept: &mut [u64]) -> usize
    requires { (length spans.now ≤ length kept.old) × (length spans.now / numbers_per_span ≤ max_entries) }
    ensures answer { result ≡ left_count removed.now (length spans.now / numbers_per_span) }
    ensures kept { take (numbers_per_span * result) kept.new
        ≡ left_blocks removed.now numbers_per_span spans.now (length spans.now / numbers_per_span) }
{
    let lent = spans.len();
    copy_block(spans, 0, kept, 0, lent);
    keep_blocks(kept, NUMBERS_PER_SPAN, removed, lent / NUMBERS_PER_SPAN)
}

// Labels, tallies and pairs of the kept graph, in the lists of the first partition, which has `rows` rows of pairs; beyond them, as far as the first filled,
// zero. It is not refused: there are no more regions and pairs than in the first.
pub fn divide_kept(
    grid: TerrainGrid,
    spans: &[u64],
    removed: &[bool; MAX_ENTRIES],
    rows: usize,
    room: usize,
    lists: &mut PartitionLists,
) -> Ready
    requires { (S : Source) × of_lists (Divides (lent_of grid.width grid.height grid.cells.now spans.now S) removed.now rows room) lists.old }
    ensures divided { (S : Source)
        → of_lists (Divides (lent_of grid.entry.width grid.entry.height grid.entry.cells.now spans.now S) removed.now rows room) lists.old
        → of_lists (of_lists (DividedKept (lent_of grid.entry.width grid.entry.height grid.entry.cells.now spans.now S)) lists.old result) lists.new }
    ensures same { SameLists lists.old lists.new }
{
    let mut kept = [0u64; NUMBERS_PER_SPAN * MAX_ENTRIES];
    let count = kept_spans(spans, removed, &mut kept);
    let end = NUMBERS_PER_SPAN * count;
    let filled = TALLIES_PER_SPAN * (spans.len() / NUMBERS_PER_SPAN);
    let paired = NUMBERS_PER_PAIR * rows;
    redivide(grid, &kept[..end], filled, paired, room, lists).unwrap()
}

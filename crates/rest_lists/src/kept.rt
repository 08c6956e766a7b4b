// Between the passes of a run to rest: what a pass leaves, its partition, and the end.
ghost use Rattle.std.specs.Prelude.{◌≡◌, List, ℕ, ◌*◌, ◌≤◌, length, take};
ghost use Rattle.definitions.specs.Limits.{max_entries, numbers_per_span, numbers_per_boundary, numbers_per_row};
ghost use Rattle.definitions.specs.Lists.{overwrite, zeroed};
ghost use Rattle.definitions.specs.RegionRecord.{Region};
ghost use Rattle.definitions.specs.Rows.{flat_rows};
ghost use Rattle.boundary_blocks.specs.Blocks.{left_blocks, left_count};
ghost use Rattle.areas.specs.Lists.{of_lists, SameLists};
ghost use Rattle.rest_lists.specs.Kept.{Origin, Divides, Redivided};
ghost use Rattle.rest_lists.specs.Together.{SameKept};
ghost use Rattle.boundary_blocks.specs.Start.{rows_at};

use areas::lists::PartitionLists;
use areas::scratch::clear_scratch;
use boundary_blocks::blocks::keep_blocks;
use boundary_blocks::start::put_rows;
use call_partition::redivide;
use definitions::limits::{
    MAX_ENTRIES, NUMBERS_PER_BOUNDARY, NUMBERS_PER_PAIR, NUMBERS_PER_SPAN, TALLIES_PER_SPAN,
};
use grid_steps::grid::TerrainGrid;

// How many boundaries are kept, and the regions and rows of pairs of their partition.
// Kept: the three counts of one partition. A `Ready` inside would spare `divide_again` and `mark_kept` making one of the other, and put one name more before
// two of the counts in each contract and law.
#[derive(Clone, Copy)]
pub struct Standing {
    pub kept: usize,
    pub regions: usize,
    pub rows: usize,
}

// The lists of a run, lent together. In front of each stands what is kept: the numbers of boundaries, their endpoints as spans, and the boundaries.
// Kept: how many are in front is told by a `Standing`, and not by a field here, since a run holds two over these lists, of its first partition and of its last.
#[derive(Drop)]
pub struct KeptLists<'a> {
    pub numbers: &'a mut [u64],
    pub spans: &'a mut [u64],
    pub boundaries: &'a mut [u64],
}

impl<'a> KeptLists<'a> {
    // The endpoints of boundaries as spans.
    // Kept: one who holds the lists to write them reads the spans through this, since the toolchain does not tell of a list that is lent by its field that it
    // stays.
    pub fn ends(&self) -> &[u64]
        ensures { result.now ≡ self.now.spans.now }
    {
        self.spans
    }

    // The first `count` boundaries; all that is held, where that is less.
    pub fn front(&self, count: usize) -> &[u64]
        ensures { result.now ≡ take (numbers_per_boundary * count) self.now.boundaries.now }
    {
        let end = NUMBERS_PER_BOUNDARY.saturating_mul(count);
        &self.boundaries[..end.min(self.boundaries.len())]
    }

    // Moves what is not marked to the front of the three lists, and gives how many are left.
    pub fn keep_left(&mut self, removed: &[bool; MAX_ENTRIES], count: usize) -> usize
        requires few { count ≤ max_entries }
        requires room { (count ≤ length self.old.numbers.now) × (numbers_per_span * count ≤ length self.old.spans.now)
            × (numbers_per_boundary * count ≤ length self.old.boundaries.now) }
        ensures numbers { self.new.numbers.now ≡ overwrite (left_blocks removed.now 1 self.old.numbers.now count) self.old.numbers.now }
        ensures spans { self.new.spans.now ≡ overwrite (left_blocks removed.now numbers_per_span self.old.spans.now count) self.old.spans.now }
        ensures boundaries { self.new.boundaries.now
            ≡ overwrite (left_blocks removed.now numbers_per_boundary self.old.boundaries.now count) self.old.boundaries.now }
        ensures answer { result ≡ left_count removed.now count }
        ensures same { SameKept self.old self.new }
    {
        keep_blocks(self.numbers, 1, removed, count);
        keep_blocks(self.spans, NUMBERS_PER_SPAN, removed, count);
        keep_blocks(self.boundaries, NUMBERS_PER_BOUNDARY, removed, count)
    }
}

// Labels, tallies and pairs of what is kept; beyond them, as far as the first partition filled, zero. It is not refused: no later partition has more regions or
// pairs than the first.
// Kept: `kept` is named beside the spans, for it is in the answer too; of a slice of just these spans it would be found by a division.
pub fn divide_again(
    grid: TerrainGrid,
    spans: &[u64],
    kept: usize,
    first: Standing,
    room: usize,
    lists: &mut PartitionLists,
) -> Standing
    requires { (O : Origin) × (anchors : List ℕ) × (s : List Region) × (places : List ℕ)
        × of_lists (Divides grid.width grid.height grid.cells.now anchors O s places spans.now kept first room) lists.old }
    ensures divided { (O : Origin) (anchors : List ℕ) (s : List Region) (places : List ℕ)
        → of_lists (Divides grid.entry.width grid.entry.height grid.entry.cells.now anchors O s places spans.now kept first room) lists.old
        → of_lists (of_lists (Redivided grid.entry.width grid.entry.height grid.entry.cells.now anchors O places first room) lists.old result) lists.new }
    ensures same { SameLists lists.old lists.new }
{
    let filled = TALLIES_PER_SPAN * first.kept;
    let paired = NUMBERS_PER_PAIR * first.rows;
    let end = NUMBERS_PER_SPAN * kept;
    let ready = redivide(grid, &spans[..end], filled, paired, room, lists).unwrap();
    Standing {
        kept,
        regions: ready.regions,
        rows: ready.rows,
    }
}

// The end of a run: masks and queue are cleared, and the rows of the `count` boundaries that are kept are written.
pub fn finish_rest(
    needed: usize,
    count: usize,
    kept: &KeptLists,
    masks: &mut [u16],
    queue: &mut [u32],
    output: &mut [u64],
)
    requires scratch { (needed ≤ length masks.old) × (needed ≤ length queue.old) }
    requires room { (count ≤ length kept.now.numbers.now) × (numbers_per_span * count ≤ length kept.now.spans.now)
        × (numbers_per_row * count ≤ length output.old) }
    ensures scratch { (masks.new ≡ zeroed needed masks.old) × (queue.new ≡ zeroed needed queue.old) }
    ensures output { output.new ≡ overwrite (flat_rows (rows_at kept.now.numbers.now kept.now.spans.now count)) output.old }
{
    clear_scratch(masks, queue, needed);
    put_rows(kept.numbers, kept.spans, count, output);
}

#[cfg(test)]
mod tests {
    use super::*;

    // As many as are asked for, and all that are held where these are fewer.
    #[test]
    fn fronts(rt: HostRuntime) {
        let mut numbers = [0, 1];
        let mut spans = [1, 2, 3, 4, 5, 6, 7, 8];
        let mut boundaries = [1, 2, 3, 4, 0, 0, 0, 0, 0, 5, 6, 7, 8, 0, 0, 0, 0, 0];
        let kept = KeptLists {
            numbers: &mut numbers,
            spans: &mut spans,
            boundaries: &mut boundaries,
        };
        assert_eq!(rt; kept.front(0).len(), 0);
        assert_eq!(rt; kept.front(1), [1, 2, 3, 4, 0, 0, 0, 0, 0].as_slice());
        assert_eq!(rt; kept.front(2).len(), 18);
        assert_eq!(rt; kept.front(256).len(), 18);
        assert_eq!(rt; kept.front(usize::MAX).len(), 18);
    }
}

// The parts of the call that runs a pass before and behind the pass, over plain lists: what a pass reads of the partitioned map, and the rows of what it keeps.

#![tactic(auto)]

ghost use Rattle.std.specs.Prelude.{◌≡◌, ◌+◌, length};
ghost use Rattle.definitions.specs.Limits.{max_entries};
ghost use Rattle.definitions.specs.Grid.{Map};
ghost use Rattle.pass_lists.specs.Contract.{ShowsMap, Viewed};
ghost use Rattle.pass_lists.specs.Finished.{Finishes, Finished};

use areas::scratch::clear_scratch;
use context::PartitionContext;
use context::anchored::mark_anchored;
use context::pairs::{Pair, pair_starts};
use definitions::limits::MAX_ENTRIES;
use rows::canonical_output;

// A partitioned map as a pass is given it. The boundaries and anchors are as lent: `needed` cells in rows of `width`, `count` spans, and of these `rows` rows
// of pairs.
#[derive(Clone, Copy)]
pub struct SpanPartition<'a> {
    pub width: usize,
    pub needed: usize,
    pub labels: &'a [u32],
    pub anchors: &'a [u64],
    pub regions: usize,
    pub rows: usize,
    pub count: usize,
    pub boundaries: &'a [u64],
    pub tallies: &'a [u32],
    pub pairs: &'a [u32],
}

// What a pass reads of a partitioned map: where the rows of each span's pairs begin, the full pair of each boundary, which regions are anchored (in masks) and
// how many incidents each has (in the queue).
pub fn view(
    partition: SpanPartition,
    masks: &mut [u16],
    queue: &mut [u32],
    starts: &mut [usize; MAX_ENTRIES + 1],
    full: &mut [Option<Pair>; MAX_ENTRIES],
)
    requires partitioned { (M : Map) × ShowsMap M partition (length masks.old) (length queue.old) }
    requires room { (length starts.old ≡ max_entries + 1) × (length full.old ≡ max_entries) }
    ensures { (M : Map) → ShowsMap M partition.entry (length masks.old) (length queue.old)
        → Viewed M partition.entry.needed partition.entry.pairs.now masks.old queue.old
        masks.new queue.new starts.new full.new }
{
    clear_scratch(masks, queue, partition.regions);
    pair_starts(partition.pairs, partition.rows, partition.count, starts);
    let context = PartitionContext {
        boundaries: partition.boundaries,
        tallies: partition.tallies,
        pairs: partition.pairs,
        starts,
        count: partition.count,
    };
    context.full_pairs(full);
    mark_anchored(partition.width, partition.labels, partition.anchors, masks);
    context.count_incidents(partition.regions, queue);
}

// Clears masks and queue, writes the rows of the `count` boundaries that are not removed, and gives how many there are.
// Never put into its caller: the rows that are sorted here, 10 KiB, would stand on the stack beside the lists of the pass.
// Kept: `count` is named beside the boundaries, as `canonical_output` and the contract's words take it; were it found here by a division, each contract would
// name the quotient in its place.
#[inline(never)]
pub fn finish(
    needed: usize,
    count: usize,
    boundaries: &[u64],
    removed: &[bool; MAX_ENTRIES],
    masks: &mut [u16],
    queue: &mut [u32],
    output: &mut [u64],
) -> usize
    requires { Finishes needed count boundaries.now (length masks.old) (length queue.old) (length output.old) }
    ensures { Finished needed count boundaries.now removed.now masks.old queue.old
        output.old masks.new queue.new output.new result }
{
    clear_scratch(masks, queue, needed);
    canonical_output(boundaries, count, removed, output)
}

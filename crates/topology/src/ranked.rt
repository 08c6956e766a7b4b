// The call that gives the ranked junction list, over the lent slice of region records.
ghost use Rattle.std.specs.Prelude.{◌≡◌, ◌*◌, ◌/◌, ◌≤◌, ℕ, List, length};
ghost use Rattle.definitions.specs.Limits.{max_entries, numbers_per_span};
ghost use Rattle.definitions.specs.Grid.{Map};
ghost use Rattle.definitions.specs.Context.{Context};
ghost use Rattle.junction_proposals.specs.Rows.{max_proposals};
ghost use Rattle.pass_lists.specs.Contract.{ShowsMap, Viewed};
ghost use Rattle.ranked_finish.specs.Ends.{ranked_of};
ghost use Rattle.topology.specs.Proposals.{PassesIn, Unmarked};
ghost use Rattle.topology.specs.Mouths.{NoMarks};
ghost use Rattle.topology.specs.Marks.{AskedLent};
ghost use Rattle.areas.specs.Lists.{of_lists, SameLists};
ghost use Rattle.call_partition.specs.Asking.{of_asked};
ghost use Rattle.topology.specs.Lent.{lends, leaves};
ghost use Rattle.topology.specs.Ranked.{Ranked, RankedFor, RankedOver};

use crate::junction_pass::{NO_ROW, allowed_proposals};
use crate::records::fill_from_lists;
use areas::lists::PartitionLists;
use call_partition::asked::Asked;
use call_partition::{Ready, prepare_lists};
use context::Region;
use context::pairs::Pair;
use definitions::limits::{MAX_ENTRIES, NUMBERS_PER_BOUNDARY, NUMBERS_PER_SPAN};
use junction_proposals::lists::JunctionLists;
use junction_proposals::proposals::MAX_PROPOSALS;
use junction_selection::found::FoundRows;
use junction_selection::selection::select_proposals;
use pass_lists::{SpanPartition, view};
use ranked_finish::{RankedKept, finish_ranked};
use ranked_rows::{RankedRow, list_ranked};
use refusals::Refusal;

// What stands in the list where no row was put.
const NO_RANKED: RankedRow = RankedRow {
    candidate: NO_ROW,
    taken: 0,
    refused_by: 0,
};

// Pass 3 with its list: marks the boundaries that it removes, lists the proposals that reach the ranking, and gives how many there are. No boundary is marked
// before.
pub fn rank_junctions(
    records: &[Region],
    lists: &JunctionLists,
    removed: &mut [bool; MAX_ENTRIES],
    listed: &mut [RankedRow],
) -> usize
    requires lists_show { (C : Context) × PassesIn C records.now lists.now }
    requires before_ranking { Unmarked removed.old lists.now.count × (max_proposals ≤ length listed.old) }
    ensures { (C : Context) → PassesIn C records.now lists.now → Ranked C lists.now.count removed.new listed.old listed.new result }
{
    let mut rows = [NO_ROW; MAX_PROPOSALS];
    let mut allowed = [false; MAX_PROPOSALS];
    let n = allowed_proposals(records, lists, &mut rows, &mut allowed);
    let found = FoundRows {
        lists,
        rows: &rows[..n],
    };
    select_proposals(&found, &allowed, removed);
    list_ranked(&found, &allowed, listed)
}

// Views the partitioned map; where the rows of each boundary stand in the pairs, no pass 3 reads.
// Never put into its caller: these places, 2 KiB, would stand on the stack beside the rows of the list.
#[inline(never)]
fn view_full(
    partition: SpanPartition,
    masks: &mut [u16],
    queue: &mut [u32],
    full: &mut [Option<Pair>; MAX_ENTRIES],
)
    requires partitioned { (M : Map) × ShowsMap M partition (length masks.old) (length queue.old) }
    requires room { length full.old ≡ max_entries }
    ensures { (M : Map) → ShowsMap M partition.entry (length masks.old) (length queue.old)
        → (starts : List ℕ) × Viewed M partition.entry.needed partition.entry.pairs.now masks.old queue.old masks.new queue.new starts full.new }
{
    let mut starts = [0; MAX_ENTRIES + 1];
    view(partition, masks, queue, &mut starts, full);
}

// Views the partitioned map, marks what pass 3 removes and lists its proposals, where there are as many boundaries as spans; gives how many proposals there
// are. Labels, tallies and pairs are those of the partition of what a call is asked.
// Never put into its caller: the rows would stand on the stack beside those that are sorted at the end of the call.
// Kept: the lists one by one, as in `mark_lent` of `marks`.
#[inline(never)]
pub fn mark_ranked(
    asked: Asked,
    ready: Ready,
    records: &[Region],
    labels: &[u32],
    tallies: &[u32],
    pairs: &[u32],
    masks: &mut [u16],
    queue: &mut [u32],
    removed: &mut [bool; MAX_ENTRIES],
    listed: &mut [RankedRow],
) -> usize
    requires map_shown { (M : Map) × AskedLent M records.now asked ready labels.now tallies.now pairs.now (length masks.old) (length queue.old) }
    requires before_ranking { NoMarks removed.old × (max_proposals ≤ length listed.old) }
    ensures { (M : Map) → AskedLent M records.now asked.entry ready labels.now tallies.now pairs.now (length masks.old) (length queue.old)
        → RankedFor M (asked.entry.height * asked.entry.width) (length asked.entry.spans.now / numbers_per_span) asked.entry.boundaries.now
        masks.old queue.old masks.new queue.new
        removed.old removed.new listed.old listed.new result }
{
    let count = asked.spans.len() / NUMBERS_PER_SPAN;
    let boundaries = asked.boundaries;
    if boundaries.len() / NUMBERS_PER_BOUNDARY != count {
        return 0;
    }
    let width = asked.width as usize;
    // Kept: as in `mark_lent` of `marks`.
    let partition = SpanPartition {
        width,
        needed: asked.height as usize * width,
        labels,
        anchors: asked.anchors,
        regions: ready.regions,
        rows: ready.rows,
        count,
        boundaries,
        tallies,
        pairs,
    };
    let mut full = [None; MAX_ENTRIES];
    view_full(partition, masks, queue, &mut full);
    let lists = JunctionLists {
        boundaries,
        full: &full,
        counts: queue,
        marks: masks,
        count,
        regions: ready.regions,
    };
    rank_junctions(records, &lists, removed, listed)
}

// The call of pass 3 with its list: how many rows are kept and proposals there are, or the refusal. Nothing is written to the lent list before the proposals
// are counted.
pub fn topology_ranked_junctions(
    asked: Asked,
    lists: &mut PartitionLists,
    records: &mut [Region],
    output: &mut [u64],
    ranked: &mut [u32],
) -> Result<RankedKept, Refusal>
    ensures ranked { RankedOver (of_lists (of_asked lends asked.entry) lists.old records.old output.old) ranked.old (ranked_of result)
        (of_lists leaves lists.new records.new output.new) ranked.new }
    ensures same { SameLists lists.old lists.new }
{
    let ready = prepare_lists(asked, records.len(), output.len(), lists)?;
    fill_from_lists(records, ready.regions, asked.grid(), &*lists);
    let mut removed = [false; MAX_ENTRIES];
    let mut listed = [NO_RANKED; MAX_PROPOSALS];
    // Kept: the lists that are read have names as in `mark_asked` of `marks`; masks and queue, which two calls are lent, have theirs beside them.
    let labels = &mut *lists.labels;
    let masks = &mut *lists.masks;
    let queue = &mut *lists.queue;
    let tallies = &mut *lists.tallies;
    let pairs = &mut *lists.pairs;
    let n = mark_ranked(
        asked,
        ready,
        records,
        &*labels,
        &*tallies,
        &*pairs,
        masks,
        queue,
        &mut removed,
        &mut listed,
    );
    finish_ranked(
        asked.height as usize * asked.width as usize,
        asked.boundaries.len() / NUMBERS_PER_BOUNDARY,
        asked.boundaries,
        &removed,
        &listed[..n],
        masks,
        queue,
        output,
        ranked,
    )
}

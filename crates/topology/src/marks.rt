// The marks of the boundaries that the pass of a call removes.
ghost use Rattle.std.specs.Prelude.{◌*◌, ◌/◌, ◌≤◌, false, length, replicate};
ghost use Rattle.definitions.specs.Limits.{max_entries, numbers_per_span};
ghost use Rattle.context.specs.Records.{max_cells};
ghost use Rattle.definitions.specs.Grid.{Map};
ghost use Rattle.definitions.specs.Context.{Context};
ghost use Rattle.checks.specs.Passes.{pass_number};
ghost use Rattle.areas.specs.Lists.{SameLists};
ghost use Rattle.topology.specs.Mouths.{NoMarks};
ghost use Rattle.topology.specs.Marks.{Shows, Removed, LentAs, AskedLent, MarkedFor, SameFilled};

use crate::interior_pass::collapse_ramp_interiors;
use crate::junction_pass::remove_junction_boundaries;
use crate::mouth_pass::replace_ramp_mouths;
use areas::lists::PartitionLists;
use call_partition::Ready;
use call_partition::asked::Asked;
use checks::passes::Pass;
use context::pairs::Pair;
use context::{PartitionContext, Region};
use definitions::limits::{MAX_ENTRIES, NUMBERS_PER_BOUNDARY, NUMBERS_PER_SPAN};
use junction_proposals::lists::JunctionLists;
use pass_lists::{SpanPartition, view};

// Marks the boundaries that the pass removes. Marks and counts, which show anchored regions and incidents, are its to work in.
// Kept: the marks of boundaries are lent, and clear at the start. A pass that gave them would make the list, lend it to what marks edge by edge and give it:
// two lines more in each pass, and a pair as the answer of `rank_junctions`, which counts besides.
pub fn removed_marks(
    pass: Pass,
    records: &[Region],
    regions: usize,
    context: PartitionContext,
    full: &[Option<Pair>; MAX_ENTRIES],
    marks: &mut [u16],
    counts: &mut [u32],
    removed: &mut [bool; MAX_ENTRIES],
)
    requires lists_show { (C : Context) × Shows C records.now regions context.count context.boundaries.now context.tallies.now
        context.pairs.now context.starts.now full.now marks.old counts.old }
    requires none_marked { NoMarks removed.old }
    ensures { (C : Context) →
        Shows C records.now regions context.entry.count context.entry.boundaries.now context.entry.tallies.now
        context.entry.pairs.now context.entry.starts.now full.now marks.old counts.old →
        Removed (pass_number pass) C removed.new }
{
    match pass {
        Pass::ReplaceRampMouths => replace_ramp_mouths(records, context, marks, counts, removed),
        Pass::CollapseRampInteriors => {
            collapse_ramp_interiors(records, regions, context, marks, counts, removed)
        }
        Pass::RemoveJunctionBoundaries => {
            let lists = JunctionLists {
                boundaries: context.boundaries,
                full,
                counts,
                marks,
                count: context.count,
                regions,
            };
            remove_junction_boundaries(records, &lists, removed)
        }
    }
}

// Views the partitioned map and marks what the pass removes: none, where there are not as many boundaries as spans. What was marked before does not count. The
// pass is lent as much of masks and queue as there are regions.
// Kept: the marks are lent, and not given: each function that gives such a list has it on the stack once or twice more.
pub fn mark_removed(
    pass: Pass,
    records: &[Region],
    partition: SpanPartition,
    masks: &mut [u16],
    queue: &mut [u32],
    removed: &mut [bool; MAX_ENTRIES],
)
    requires { (M : Map) × LentAs M records.now partition (length masks.old) (length queue.old) }
    ensures { (M : Map) → LentAs M records.now partition.entry (length masks.old) (length queue.old)
        → MarkedFor (pass_number pass) M partition.entry.needed partition.entry.count partition.entry.boundaries.now
        masks.old queue.old masks.new queue.new (replicate max_entries false) removed.new }
{
    let SpanPartition {
        regions,
        count,
        boundaries,
        tallies,
        pairs,
        ..
    } = partition;
    *removed = [false; MAX_ENTRIES];
    if boundaries.len() / NUMBERS_PER_BOUNDARY != count {
        return;
    }
    let mut starts = [0usize; MAX_ENTRIES + 1];
    let mut full: [Option<Pair>; MAX_ENTRIES] = [None; MAX_ENTRIES];
    view(partition, masks, queue, &mut starts, &mut full);
    let context = PartitionContext {
        boundaries,
        tallies,
        pairs,
        starts: &starts,
        count,
    };
    removed_marks(
        pass,
        records,
        regions,
        context,
        &full,
        &mut masks[..regions],
        &mut queue[..regions],
        removed,
    );
}

// Marks the boundaries that the pass removes of what a call is asked: labels, tallies and pairs are those of its partition.
// Kept: the lists one by one. With `PartitionLists` this function would lend three of them to `SpanPartition`, and behind a loan by a struct a proof does not
// know that a list is as it was.
pub(crate) fn mark_lent(
    pass: Pass,
    asked: Asked,
    ready: Ready,
    records: &[Region],
    labels: &[u32],
    tallies: &[u32],
    pairs: &[u32],
    masks: &mut [u16],
    queue: &mut [u32],
    removed: &mut [bool; MAX_ENTRIES],
)
    requires few { asked.height * asked.width ≤ max_cells }
    requires map_shown { (M : Map) × AskedLent M records.now asked ready labels.now tallies.now pairs.now (length masks.old) (length queue.old) }
    ensures { (M : Map) → AskedLent M records.now asked.entry ready labels.now tallies.now pairs.now (length masks.old) (length queue.old)
        → MarkedFor (pass_number pass) M (asked.entry.height * asked.entry.width) (length asked.entry.spans.now / numbers_per_span)
        asked.entry.boundaries.now masks.old queue.old masks.new queue.new (replicate max_entries false) removed.new }
{
    let width = asked.width as usize;
    // Kept: `mark_ranked` makes the same; a function of both would promise each of the ten fields, and be longer than the two literals.
    let partition = SpanPartition {
        width,
        needed: asked.height as usize * width,
        labels,
        anchors: asked.anchors,
        regions: ready.regions,
        rows: ready.rows,
        count: asked.spans.len() / NUMBERS_PER_SPAN,
        boundaries: asked.boundaries,
        tallies,
        pairs,
    };
    mark_removed(pass, records, partition, masks, queue, removed)
}

// The same of the lists that the partition filled.
pub(crate) fn mark_asked(
    pass: Pass,
    asked: Asked,
    ready: Ready,
    records: &[Region],
    lists: &mut PartitionLists,
    removed: &mut [bool; MAX_ENTRIES],
)
    requires few { asked.height * asked.width ≤ max_cells }
    requires map_shown { (M : Map) × AskedLent M records.now asked ready lists.old.labels.now lists.old.tallies.now lists.old.pairs.now
        (length lists.old.masks.now) (length lists.old.queue.now) }
    ensures marked { (M : Map) → AskedLent M records.now asked.entry ready lists.old.labels.now lists.old.tallies.now lists.old.pairs.now
        (length lists.old.masks.now) (length lists.old.queue.now)
        → MarkedFor (pass_number pass) M (asked.entry.height * asked.entry.width) (length asked.entry.spans.now / numbers_per_span)
        asked.entry.boundaries.now lists.old.masks.now lists.old.queue.now
        lists.new.masks.now lists.new.queue.now (replicate max_entries false) removed.new }
    ensures read { SameFilled lists.old lists.new }
    ensures same { SameLists lists.old lists.new }
{
    // Kept: each list that is read has a name of its own first; `lists.labels` beside `lists.masks` in one call is refused here, though Rust takes it.
    let labels = &mut *lists.labels;
    let tallies = &mut *lists.tallies;
    let pairs = &mut *lists.pairs;
    mark_lent(
        pass,
        asked,
        ready,
        records,
        &*labels,
        &*tallies,
        &*pairs,
        lists.masks,
        lists.queue,
        removed,
    )
}

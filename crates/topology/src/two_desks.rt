// Two desks over one partition (SPECIFICATION 19.13): the terrain is partitioned once and its records are filled, then each desk has its own checks and its
// pass. A desk finds the shared lists as they are on success, and leaves them so.
ghost use Rattle.std.specs.Prelude.{◌≡◌};
ghost use Rattle.refusals.specs.Answers.{answer_of};
ghost use Rattle.areas.specs.Lists.{of_lists, SameLists};
ghost use Rattle.call_answers.specs.Desks.{desks_answer};
ghost use Rattle.topology.specs.Desks.{desk_in, Ground, TerrainIn, DeskRan, DesksRan, lends_both, leaves-both, RanBothOver};

use crate::marks::mark_lent;
use crate::records::fill_from_lists;
use areas::lists::PartitionLists;
use areas::scratch::clear_scratch;
use call_answers::desk_answers::{DeskOrder, DesksKept};
use call_partition::Ready;
use call_partition::asked::Asked;
use context::Region;
use definitions::limits::{MAX_ENTRIES, NUMBERS_PER_BOUNDARY};
use desk_checks::own::{Desk, check_desk};
use desk_checks::shared::prepare_shared;
use pass_lists::finish;
use refusals::Refusal;

// The terrain of both desks, as a call with no boundaries and no anchors is asked, whose partition is ready.
#[derive(Clone, Copy)]
pub struct SharedTerrain<'a> {
    pub asked: Asked<'a>,
    pub ready: Ready,
}

// One desk: its checks, then its pass over the lists of the partition. Gives how many rows are kept. Masks and queue are zero over the needed length, before
// and after.
pub fn run_desk(
    desk: Desk,
    terrain: SharedTerrain,
    records: &[Region],
    labels: &[u32],
    tallies: &[u32],
    pairs: &[u32],
    masks: &mut [u16],
    queue: &mut [u32],
    output: &mut [u64],
) -> Result<usize, Refusal>
    requires { (G : Ground) × TerrainIn G terrain records.now labels.now masks.old queue.old tallies.now pairs.now }
    ensures { (G : Ground) → TerrainIn G terrain.entry records.now labels.now masks.old queue.old tallies.now pairs.now
        → DeskRan G terrain.entry.asked.width terrain.entry.asked.height terrain.entry.asked.spans.now
        (desk_in desk.entry output.old)
        masks.old queue.old (answer_of result) masks.new queue.new output.new }
{
    let shared = terrain.asked;
    let pass = check_desk(
        shared.width,
        shared.height,
        shared.spans,
        desk,
        output.len(),
    )?;
    let asked = Asked {
        boundaries: desk.boundaries,
        anchors: desk.anchors,
        ..shared
    };
    let grid = asked.grid();
    let mut removed = [false; MAX_ENTRIES];
    mark_lent(
        pass,
        asked,
        terrain.ready,
        records,
        labels,
        tallies,
        pairs,
        masks,
        queue,
        &mut removed,
    );
    let kept = finish(
        grid.height * grid.width,
        desk.boundaries.len() / NUMBERS_PER_BOUNDARY,
        desk.boundaries,
        &removed,
        masks,
        queue,
        output,
    );
    Ok(kept)
}

// Both desks, in the order told.
pub fn run_desks(
    order: DeskOrder,
    terrain: SharedTerrain,
    records: &[Region],
    route_desk: Desk,
    coaching_desk: Desk,
    labels: &[u32],
    tallies: &[u32],
    pairs: &[u32],
    masks: &mut [u16],
    queue: &mut [u32],
    route_output: &mut [u64],
    coaching_output: &mut [u64],
) -> DesksKept
    requires { (G : Ground) × TerrainIn G terrain records.now labels.now masks.old queue.old tallies.now pairs.now }
    ensures { (G : Ground) → TerrainIn G terrain.entry records.now labels.now masks.old queue.old tallies.now pairs.now
        → DesksRan G terrain.entry.asked.width terrain.entry.asked.height terrain.entry.asked.spans.now
        (desk_in route_desk.entry route_output.old)
        (desk_in coaching_desk.entry coaching_output.old)
        masks.old queue.old (desks_answer result) masks.new queue.new route_output.new coaching_output.new }
{
    match order {
        DeskOrder::RouteFirst => {
            let route = run_desk(
                route_desk,
                terrain,
                records,
                labels,
                tallies,
                pairs,
                masks,
                queue,
                route_output,
            );
            let coaching = run_desk(
                coaching_desk,
                terrain,
                records,
                labels,
                tallies,
                pairs,
                masks,
                queue,
                coaching_output,
            );
            DesksKept { route, coaching }
        }
        DeskOrder::CoachingFirst => {
            let coaching = run_desk(
                coaching_desk,
                terrain,
                records,
                labels,
                tallies,
                pairs,
                masks,
                queue,
                coaching_output,
            );
            let route = run_desk(
                route_desk,
                terrain,
                records,
                labels,
                tallies,
                pairs,
                masks,
                queue,
                route_output,
            );
            DesksKept { route, coaching }
        }
    }
}

// The call for two desks: the route desk goes first where `order` is 0, the coaching desk where it is any other number. The records are filled from the queue
// before the desks work in it.
pub fn topology_two_desks(
    order: u64,
    width: u64,
    height: u64,
    cells: &[u8],
    spans: &[u64],
    route_desk: Desk,
    coaching_desk: Desk,
    lists: &mut PartitionLists,
    records: &mut [Region],
    route_output: &mut [u64],
    coaching_output: &mut [u64],
) -> DesksKept
    ensures ran { RanBothOver order (of_lists (lends_both width height cells.now spans.now) lists.old records.old)
        (desk_in route_desk.entry route_output.old)
        (desk_in coaching_desk.entry coaching_output.old)
        (desks_answer result)
        (of_lists leaves-both lists.new records.new route_output.new coaching_output.new) }
    ensures same { SameLists lists.old lists.new }
{
    match prepare_shared(width, height, cells, spans, records.len(), lists) {
        // A refusal over the shared lists comes first and goes to both desks.
        Err(refusal) => DesksKept {
            route: Err(refusal),
            coaching: Err(refusal),
        },
        Ok(ready) => {
            let asked = Asked {
                width,
                height,
                cells,
                spans,
                boundaries: &[],
                anchors: &[],
            };
            let grid = asked.grid();
            fill_from_lists(records, ready.regions, grid, &*lists);
            clear_scratch(lists.masks, lists.queue, grid.height * grid.width);
            let terrain = SharedTerrain { asked, ready };
            // Kept: as in `mark_asked` of `marks`.
            let labels = &mut *lists.labels;
            let tallies = &mut *lists.tallies;
            let pairs = &mut *lists.pairs;
            run_desks(
                DeskOrder::from(order),
                terrain,
                records,
                route_desk,
                coaching_desk,
                &*labels,
                &*tallies,
                &*pairs,
                lists.masks,
                lists.queue,
                route_output,
                coaching_output,
            )
        }
    }
}

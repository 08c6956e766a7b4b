// The call that runs the passes to rest, over the lent slice of region records.
ghost use Rattle.std.specs.Prelude.{◌≡◌, ◌≤◌, ◌*◌, List, ℕ, false, length, replicate, take};
ghost use Rattle.definitions.specs.Limits.{max_entries, numbers_per_span, numbers_per_boundary};
ghost use Rattle.definitions.specs.Grid.{Map};
ghost use Rattle.context.specs.Records.{max_cells};
ghost use Rattle.topology.specs.Marks.{Lent, MarkedFor, SameFilled};
ghost use Rattle.checks.specs.Passes.{pass_number};
ghost use Rattle.rest_definitions.specs.RowOrder.{start_map};
ghost use Rattle.rest_definitions.specs.Rest.{passed};
ghost use Rattle.context.specs.declared.Region.{Region};
ghost use Rattle.rest_lists.specs.Kept.{Origin, map_lent, all_places};
ghost use Rattle.rest_lists.specs.Together.{SameKept};
ghost use Rattle.areas.specs.Lists.{of_lists, SameLists};
ghost use Rattle.call_partition.specs.Asking.{of_asked};
ghost use Rattle.topology.specs.Lent.{lends, leaves};
ghost use Rattle.call_answers.specs.Rest.{rest_answer_of};
ghost use Rattle.topology.specs.Rest.{run-lists, RestRanOver, Stands, RanToRest};

use crate::marks::mark_asked;
use crate::records::{fill_from_lists, renew_from_lists};
use areas::lists::PartitionLists;
use call_answers::rest_answers::RestKept;
use call_partition::Ready;
use call_partition::asked::Asked;
use checks::passes::Pass;
use context::Region;
use definitions::limits::{MAX_ENTRIES, NUMBERS_PER_BOUNDARY, NUMBERS_PER_SPAN};
use grid_steps::grid::TerrainGrid;
use refusals::Refusal;
use rest_lists::begin::begin_rest;
use rest_lists::kept::{KeptLists, Standing, divide_again, finish_rest};
use rest_lists::turns::first_turn;

// Marks which of the kept boundaries the pass removes. The lists are the partition of what is kept.
pub fn mark_kept<'x>(
    pass: Pass,
    records: &[Region],
    grid: TerrainGrid<'x>,
    anchors: &'x [u64],
    standing: Standing,
    kept: &'x KeptLists,
    lists: &mut PartitionLists,
) -> [bool; MAX_ENTRIES]
    requires few { (standing.kept ≤ max_entries) × (grid.height * grid.width ≤ max_cells) }
    requires room { (numbers_per_span * standing.kept ≤ length kept.now.spans.now) × (numbers_per_boundary * standing.kept ≤ length kept.now.boundaries.now) }
    requires map_shown { (M : Map) × Lent M records.now grid.width (grid.height * grid.width) lists.old.labels.now anchors.now
        standing.regions standing.rows standing.kept (take (numbers_per_boundary * standing.kept) kept.now.boundaries.now)
        lists.old.tallies.now lists.old.pairs.now (length lists.old.masks.now) (length lists.old.queue.now) }
    ensures marked { (M : Map) → Lent M records.now grid.entry.width (grid.entry.height * grid.entry.width) lists.old.labels.now anchors.now
        standing.regions standing.rows standing.kept (take (numbers_per_boundary * standing.kept) kept.now.boundaries.now)
        lists.old.tallies.now lists.old.pairs.now (length lists.old.masks.now) (length lists.old.queue.now)
        → MarkedFor (pass_number pass) M (grid.entry.height * grid.entry.width) standing.kept
        (take (numbers_per_boundary * standing.kept) kept.now.boundaries.now)
        lists.old.masks.now lists.old.queue.now lists.new.masks.now lists.new.queue.now (replicate max_entries false) result }
    ensures read { SameFilled lists.old lists.new }
    ensures same { SameLists lists.old lists.new }
{
    // Kept: what is kept is put as a call is asked, since `mark_asked` marks for every call; with the grid, the count, the boundaries and the anchors in place
    // of `Asked` it would take eight parameters, and the three calls that have an `Asked` would take it apart.
    let asked = Asked {
        width: grid.width as u64,
        height: grid.height as u64,
        cells: grid.cells,
        spans: &kept.ends()[..NUMBERS_PER_SPAN * standing.kept],
        boundaries: kept.front(standing.kept),
        anchors,
    };
    let ready = Ready {
        regions: standing.regions,
        rows: standing.rows,
    };
    let mut removed = [false; MAX_ENTRIES];
    mark_asked(pass, asked, ready, records, lists, &mut removed);
    removed
}

// Kept: grid, anchors and the first partition stay, the lists change. In a struct of all of them each contract would say of its fields what it says of the
// parameters here, and of the first three besides that they stay.
//
// One pass over what is kept: what it does not mark moves to the front. Where it removes some, the partition and the records of what is left.
pub fn turn_once(
    pass: Pass,
    grid: TerrainGrid,
    anchors: &[u64],
    first: Standing,
    standing: Standing,
    lists: &mut PartitionLists,
    records: &mut [Region],
    kept: &mut KeptLists,
) -> Standing
    requires { (O : Origin) × (s : List Region) × (places : List ℕ)
        × Stands grid.width grid.height grid.cells.now anchors.now O s places first standing
        (of_lists run-lists lists.old records.old kept.old.numbers.now kept.old.spans.now kept.old.boundaries.now) }
    ensures stands { (O : Origin) (s : List Region) (places : List ℕ)
        → Stands grid.entry.width grid.entry.height grid.entry.cells.now anchors.now O s places first standing
        (of_lists run-lists lists.old records.old kept.old.numbers.now kept.old.spans.now kept.old.boundaries.now)
        → Stands grid.entry.width grid.entry.height grid.entry.cells.now anchors.now O s
        (passed (pass_number pass) (start_map (map_lent grid.entry.width grid.entry.height grid.entry.cells.now anchors.now O)) places) first result
        (of_lists run-lists lists.new records.new kept.new.numbers.now kept.new.spans.now kept.new.boundaries.now) }
    ensures same { SameLists lists.old lists.new }
    ensures same_kept { SameKept kept.old kept.new }
{
    let removed = mark_kept(pass, records, grid, anchors, standing, kept, lists);
    let left = kept.keep_left(&removed, standing.kept);
    if left == standing.kept {
        return standing;
    }
    let next = divide_again(grid, kept.ends(), left, first, records.len(), lists);
    renew_from_lists(records, first.regions, next.regions, grid, &*lists);
    next
}

// The loop: passes until three in a row remove none. Gives how many are kept then, and the rounds.
pub fn run_turns(
    grid: TerrainGrid,
    anchors: &[u64],
    first: Standing,
    lists: &mut PartitionLists,
    records: &mut [Region],
    kept: &mut KeptLists,
) -> RestKept
    requires { (O : Origin) × (s : List Region) × Stands grid.width grid.height grid.cells.now anchors.now O s
        (all_places (map_lent grid.width grid.height grid.cells.now anchors.now O)) first first
        (of_lists run-lists lists.old records.old kept.old.numbers.now kept.old.spans.now kept.old.boundaries.now) }
    ensures rests { (O : Origin) (s : List Region)
        → Stands grid.entry.width grid.entry.height grid.entry.cells.now anchors.now O s
        (all_places (map_lent grid.entry.width grid.entry.height grid.entry.cells.now anchors.now O)) first first
        (of_lists run-lists lists.old records.old kept.old.numbers.now kept.old.spans.now kept.old.boundaries.now)
        → RanToRest grid.entry.width grid.entry.height grid.entry.cells.now anchors.now O s first result
        (of_lists run-lists lists.new records.new kept.new.numbers.now kept.new.spans.now kept.new.boundaries.now) }
    ensures same { SameLists lists.old lists.new }
    ensures same_kept { SameKept kept.old kept.new }
{
    let mut standing = first;
    let mut turn = first_turn();
    // Kept: what a pass removes decides whether another follows; `iter::from_fn` would hold the same two variables in a closure and stop by the same test.
    while turn.quiet < 3 {
        let next = turn_once(
            turn.pass, grid, anchors, first, standing, lists, records, kept,
        );
        turn = turn.next(next.kept != standing.kept);
        standing = next;
    }
    RestKept {
        kept: standing.kept,
        rounds: turn.rounds_run(),
    }
}

// The whole call: how many rows are kept and how many rounds were run, or the refusal.
pub fn topology_run_to_rest(
    asked: Asked,
    lists: &mut PartitionLists,
    records: &mut [Region],
    output: &mut [u64],
) -> Result<RestKept, Refusal>
    ensures rests { RestRanOver (of_lists (of_asked lends asked.entry) lists.old records.old output.old) (rest_answer_of result)
        (of_lists leaves lists.new records.new output.new) }
    ensures same { SameLists lists.old lists.new }
{
    let mut numbers = [0u64; MAX_ENTRIES];
    let mut spans = [0u64; NUMBERS_PER_SPAN * MAX_ENTRIES];
    let mut boundaries = [0u64; NUMBERS_PER_BOUNDARY * MAX_ENTRIES];
    let mut kept = KeptLists {
        numbers: &mut numbers,
        spans: &mut spans,
        boundaries: &mut boundaries,
    };
    let ready = begin_rest(asked, records.len(), output.len(), lists, &mut kept)?;
    let grid = asked.grid();
    let first = Standing {
        kept: asked.boundaries.len() / NUMBERS_PER_BOUNDARY,
        regions: ready.regions,
        rows: ready.rows,
    };
    fill_from_lists(records, ready.regions, grid, &*lists);
    let rest = run_turns(grid, asked.anchors, first, lists, records, &mut kept);
    finish_rest(
        grid.height * grid.width,
        rest.kept,
        &kept,
        lists.masks,
        lists.queue,
        output,
    );
    Ok(rest)
}

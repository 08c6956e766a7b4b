// The records of a map, put into the lent slice, and records cleared.
ghost use Rattle.std.specs.Prelude.{◌≤◌, length};
ghost use Rattle.definitions.specs.Grid.{Map};
ghost use Rattle.topology.specs.Filled.{Fills, Filled, Adds, Added, Emptied, Renewed};

use areas::lists::PartitionLists;
use context::Region;
use grid_steps::grid::TerrainGrid;
use stretches::{stretch_at, with_stretch};

// Adds the cells of a stretch, those from `from` to before `end`, to the record of its region. Label 0 is of no region.
// Kept: labels are C's list, where 0 is no region; an Option made of it by `stretch_at` would only be taken apart here.
pub fn add_stretch(
    records: &mut [Region],
    width: usize,
    cells: &[u8],
    from: usize,
    end: usize,
    label: usize,
)
    requires { (M : Map) × Adds M width cells.now from end label records.old }
    ensures { (M : Map) →
        Adds M width cells.now from end label records.old →
        Added M end label records.old records.new }
{
    if label > 0 {
        let i = label - 1;
        let region = records[i];
        records[i] = with_stretch(region, width, cells, from, end);
    }
}

// One record a region, along the chain of stretches: region r's stands at r - 1.
pub fn fill(
    records: &mut [Region],
    regions: usize,
    grid: TerrainGrid,
    labels: &[u32],
    queue: &[u32],
)
    requires { (M : Map) × Fills M (length records.old) regions grid.width grid.cells.now labels.now queue.now }
    ensures { (M : Map) →
        Fills M (length records.old) regions grid.entry.width grid.entry.cells.now labels.now queue.now →
        Filled M records.old records.new }
{
    clear_records(records, regions);
    let TerrainGrid { width, cells, .. } = grid;
    let end = cells.len();
    let mut c = 0;
    // Kept: each stretch says where the next begins; `iter::from_fn` would hold c in a closure and end by the same test.
    while c < end {
        let s = stretch_at(labels, queue, c);
        add_stretch(records, width, cells, c, s.end, s.label);
        c = s.end;
    }
}

// The same of the lists of a partition.
// Kept: who is lent the lists in a struct names none of them for it; two lists of a struct in one call are refused there, though Rust takes them.
pub(crate) fn fill_from_lists(
    records: &mut [Region],
    regions: usize,
    grid: TerrainGrid,
    lists: &PartitionLists,
)
    requires { (M : Map) × Fills M (length records.old) regions grid.width grid.cells.now lists.now.labels.now lists.now.queue.now }
    ensures { (M : Map) →
        Fills M (length records.old) regions grid.entry.width grid.entry.cells.now lists.now.labels.now lists.now.queue.now →
        Filled M records.old records.new }
{
    fill(records, regions, grid, lists.labels, lists.queue);
}

// Empties the first records.
pub fn clear_records(records: &mut [Region], needed: usize)
    requires { needed ≤ length records.old }
    ensures { Emptied needed records.old records.new }
{
    records[..needed].fill(Region::empty());
}

// The records of a partition in place of an earlier one's: the first records, as many as an earlier partition filled, are emptied before.
pub fn renew(
    records: &mut [Region],
    first: usize,
    regions: usize,
    grid: TerrainGrid,
    labels: &[u32],
    queue: &[u32],
)
    requires first_in { first ≤ length records.old }
    requires map_shown { (M : Map) × Fills M (length records.old) regions grid.width grid.cells.now labels.now queue.now }
    ensures { (M : Map) → Fills M (length records.old) regions grid.entry.width
        grid.entry.cells.now labels.now queue.now
        → Renewed M first records.old records.new }
{
    clear_records(records, first);
    fill(records, regions, grid, labels, queue);
}

// The same of the lists of a partition.
pub(crate) fn renew_from_lists(
    records: &mut [Region],
    first: usize,
    regions: usize,
    grid: TerrainGrid,
    lists: &PartitionLists,
)
    requires first_in { first ≤ length records.old }
    requires map_shown { (M : Map) × Fills M (length records.old) regions grid.width grid.cells.now lists.now.labels.now lists.now.queue.now }
    ensures { (M : Map) → Fills M (length records.old) regions grid.entry.width
        grid.entry.cells.now lists.now.labels.now lists.now.queue.now
        → Renewed M first records.old records.new }
{
    renew(records, first, regions, grid, lists.labels, lists.queue);
}

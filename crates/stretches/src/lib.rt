// Along the stretches of a map: at the first cell of a stretch the queue has where it ends, and all its cells have one label. The record of a region with the
// cells of a stretch added.

#![tactic(auto)]

ghost use Rattle.std.specs.Prelude.{◌≡◌, ℕ, ◌<◌, length};
ghost use Rattle.definitions.specs.Grid.{Map};
ghost use Rattle.definitions.specs.Partition.{labels};
ghost use Rattle.context.specs.Records.{record_of};
ghost use Rattle.stretches.specs.Stretches.{region_up_to, Read, Adding};

use context::Region;

// Where a stretch ends, and the label of its cells: 0 where it is of no region.
// Kept: the label as the list has it and no Option, which `add_stretch` of topology, the only reader, would take apart by the test that it makes of 0.
#[derive(Clone, Copy)]
pub struct Stretch {
    pub end: usize,
    pub label: usize,
}

// The stretch that begins at cell c.
pub fn stretch_at(labels: &[u32], queue: &[u32], c: usize) -> Stretch
    requires { (c < length labels.now) × (c < length queue.now) }
    ensures { Read labels.now queue.now c result }
{
    Stretch {
        end: queue[c] as usize,
        label: labels[c] as usize,
    }
}

// The record with the cells of a stretch, those from `from` to before `end`, added to those before them.
pub fn with_stretch(region: Region, width: usize, cells: &[u8], from: usize, end: usize) -> Region
    requires { (M : Map) × (id : ℕ) × Adding M width cells.now from end id (record_of region) }
    ensures { (M : Map) (id : ℕ) →
        Adding M width cells.now from end id (record_of region) →
        record_of result ≡ region_up_to M (labels M) id end }
{
    region.with_run(from % width, from / width, &cells[from..end])
}

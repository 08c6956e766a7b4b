// The regions of a map cut by spans: the masks of cut steps, then the labels of what they leave joined.
ghost use Rattle.std.specs.Prelude.{◌*◌, ◌≤◌, length};
ghost use Rattle.cut_steps.specs.Contract.{Checked};
ghost use Rattle.areas.specs.Labelled.{LabelledAs};

use cut_steps::mark_spans;
use grid_steps::grid::TerrainGrid;
use row_runs::label_cells;

// Labels every region and returns how many there are. The queue is left with the stretches of each row, the masks with the cut steps.
// Kept: three lists, and not `PartitionLists`, of whose other two a promise would have to say that they are left as they were.
pub fn label_regions(
    grid: TerrainGrid,
    spans: &[u64],
    labels: &mut [u32],
    masks: &mut [u16],
    queue: &mut [u32],
) -> usize
    requires checked { Checked grid.width grid.height grid.cells.now spans.now }
    requires room { (grid.height * grid.width ≤ length labels.old) × (grid.height * grid.width ≤ length masks.old)
        × (grid.height * grid.width ≤ length queue.old) }
    ensures { LabelledAs grid.entry.width grid.entry.height grid.entry.cells.now spans.now labels.old masks.old queue.old
        labels.new masks.new queue.new result }
{
    let needed = grid.height * grid.width;
    masks[..needed].fill(0);
    mark_spans(grid, spans, masks);
    label_cells(grid, masks, labels, queue)
}

// Stretches of a row of cells, which are joined two rows at a time: a stretch is a run of walkable cells that uncut steps to the east join, or a gap between.
// Parents of cells stand in the lent labels (crate parents), the end of each stretch in the lent queue, at its first cell.

#![tactic(auto)]

pub mod cells;
pub mod corners;
pub mod grid;
pub mod numbering;
pub mod row;
pub mod run;
pub mod south;
pub mod words;

ghost use Rattle.definitions.specs.Grid.{Map};
ghost use Rattle.row_runs.specs.Contract.{Room, OnwardCut, Labelled};

use cells::join_cells;
use grid::CutGrid;
use grid_steps::grid::TerrainGrid;
use numbering::number;
use parents::alone;

// Labels every region and returns how many there are. The queue is left with the stretches of each row, each of one label. The masks may be any: what is
// promised is of the maps whose cut steps they hold. Never put into its caller, for the reason that stands at `mark_spans` of cut_steps.
#[inline(never)]
pub fn label_cells(grid: TerrainGrid, masks: &[u16], labels: &mut [u32], queue: &mut [u32]) -> usize
    requires { Room grid.width grid.height grid.cells.now masks.now labels.old queue.old }
    ensures { (M : Map) →
        OnwardCut grid.entry.width grid.entry.height grid.entry.cells.now masks.now M →
        Labelled M labels.old queue.old labels.new queue.new result }
{
    let n = grid.height * grid.width;
    let cut = CutGrid {
        terrain: grid,
        masks,
    };
    alone(labels, n);
    join_cells(cut, labels, queue);
    number(grid.cells, labels, &*queue, n)
}

// The rows of a grid, one behind another: each is cut into stretches, and joined with the row above it.
ghost use Rattle.std.specs.Prelude.{ℕ, ◌+◌, ◌*◌, ◌≤◌};
ghost use Rattle.parents.specs.Forest.{Forest};
ghost use Rattle.row_runs.specs.Names.{EastLevel};
ghost use Rattle.row_runs.specs.Cells.{PairAsked, PairJoined, Done, RowAsked, RowDone, CellsAsked, CellsJoined};

use crate::corners::join_diagonals;
use crate::grid::CutGrid;
use crate::row::has_marks;
use crate::run::scan_row;
use crate::south::join_rows;

// The rows from `up` and from `up` + `width` on. Where no step from the upper row is cut, its straight steps have joined the diagonal ones already.
fn join_pair(grid: CutGrid, parents: &mut [u32], queue: &[u32], up: usize, marked: bool)
    requires { PairAsked grid.terrain.width grid.terrain.cells.now grid.masks.now parents.old queue.now up marked }
    ensures { (n : ℕ) (name : ℕ → ℕ) →
        Forest n name parents.old →
        up + grid.entry.terrain.width + grid.entry.terrain.width ≤ n →
        EastLevel grid.entry.terrain.cells.now grid.entry.masks.now up (up + grid.entry.terrain.width) name →
        EastLevel grid.entry.terrain.cells.now grid.entry.masks.now (up + grid.entry.terrain.width)
        (up + grid.entry.terrain.width + grid.entry.terrain.width) name →
        PairJoined grid.entry.terrain.width grid.entry.terrain.cells.now grid.entry.masks.now n name up parents.old parents.new }
{
    join_rows(grid, parents, queue, up);
    if !marked {
        return;
    }
    join_diagonals(grid, parents, up);
}

// Row y, where the rows before it are joined. Whether the row above has marks is known; the result says it of row y.
fn join_row(grid: CutGrid, parents: &mut [u32], queue: &mut [u32], y: usize, above: bool) -> bool
    requires { RowAsked grid.terrain.width grid.terrain.cells.now grid.masks.now parents.old queue.old y above }
    ensures { (n : ℕ) →
        y * grid.entry.terrain.width + grid.entry.terrain.width ≤ n →
        Done grid.entry.terrain.width n y above grid.entry.terrain.cells.now grid.entry.masks.now parents.old queue.old →
        RowDone grid.entry.terrain.width n y result grid.entry.terrain.cells.now grid.entry.masks.now parents.old queue.old
        parents.new queue.new }
{
    let from = y * grid.terrain.width;
    let end = from + grid.terrain.width;
    let marked = has_marks(grid.masks, from, end);
    scan_row(grid, parents, queue, from, end, marked);
    if y == 0 {
        return marked;
    }
    join_pair(grid, parents, &*queue, from - grid.terrain.width, above);
    marked
}

// All rows. Parents lead to one name for the cells that uncut steps join; the queue has the stretches of each row.
pub fn join_cells(grid: CutGrid, parents: &mut [u32], queue: &mut [u32])
    requires { CellsAsked grid.terrain.width grid.terrain.height grid.terrain.cells.now grid.masks.now parents.old queue.old }
    ensures { CellsJoined grid.entry.terrain.width grid.entry.terrain.height grid.entry.terrain.cells.now grid.entry.masks.now parents.old queue.old
        parents.new queue.new }
{
    let mut marked = false;
    for y in 0..grid.terrain.height {
        marked = join_row(grid, parents, queue, y, marked);
    }
}

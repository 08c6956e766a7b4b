// The stretches of one row, each by its end, the first cell that a test does not hold of.
ghost use Rattle.std.specs.Prelude.{◌≡◌, false, ◌+◌, ◌≤◌, ◌<◌, length};
ghost use Rattle.grid_steps.specs.Masks.{cut_bit};
ghost use Rattle.row_runs.specs.Stretch.{walks_as, goes_on, Clear, Until, Stretch, StretchAsked};

use crate::grid::CutGrid;
use crate::words::first_unlike;
use grid_steps::grid::{EAST_BIT, SOUTH_BIT};
use grid_steps::{is_cut, is_walkable};

// Whether a step from a cell of the row is cut. Of most rows none is.
// Kept: `fold` and not `any(|&mask| mask != 0)`, of which, since it may end early, the compiler makes no vector code: of a row of zeros it takes eight times
// the instructions.
pub fn has_marks(masks: &[u16], from: usize, end: usize) -> bool
    requires { (from ≤ end) × (end ≤ length masks.now) }
    ensures { result ≡ false → Clear masks.now from end }
{
    masks[from..end].iter().fold(0, |all, mask| all | mask) != 0
}

// The first cell from `from` on that is not as `walkable` says, one at a time.
fn alike_rest(cells: &[u8], from: usize, end: usize, walkable: bool) -> usize
    requires { (from ≤ end) × (end ≤ length cells.now) }
    ensures { Until (walks_as walkable cells.now) from end result }
{
    (from..end)
        .find(|&c| is_walkable(cells[c]) != walkable)
        .unwrap_or(end)
}

// The same, eight at a time while there are eight.
// Kept: words by their number and no `as_chunks::<8>()`: what is asked for is a place in the grid, so that of chunks the number, eight cells each, and the
// place in the chunk would be added up here again, and the place in the rest as well.
fn alike_end(cells: &[u8], from: usize, end: usize, walkable: bool) -> usize
    requires { (from ≤ end) × (end ≤ length cells.now) }
    ensures { Until (walks_as walkable cells.now) from end result }
{
    let words = (end - from) / 8;
    (0..words)
        .find_map(|k| first_unlike(cells, from + 8 * k, walkable))
        .unwrap_or_else(|| alike_rest(cells, from + 8 * words, end, walkable))
}

// Whether the run of the cell to the west has cell c: c is walkable, and the step to it is not cut.
fn goes_on(grid: CutGrid, c: usize) -> bool
    requires { (1 ≤ c) × (c < length grid.terrain.cells.now) × (c < length grid.masks.now) }
    ensures { result ≡ goes_on grid.entry.terrain.cells.now grid.entry.masks.now c }
{
    is_walkable(grid.terrain.cells[c]) && !is_cut(grid.masks, c - 1, EAST_BIT)
}

// The first cell from `from` on that the run of the cell before `from` has not.
fn run_end(grid: CutGrid, from: usize, end: usize) -> usize
    requires { (1 ≤ from) × (from ≤ end) × (end ≤ length grid.terrain.cells.now) × (end ≤ length grid.masks.now) }
    ensures { Until (goes_on grid.entry.terrain.cells.now grid.entry.masks.now) from end result }
{
    (from..end).find(|&c| !goes_on(grid, c)).unwrap_or(end)
}

// The first cell from `from` on whose step to the south is not cut.
pub fn south_end(masks: &[u16], from: usize, end: usize) -> usize
    requires { (from ≤ end) × (end ≤ length masks.now) }
    ensures { Until (λ c. cut_bit masks.now c 7) from end result }
{
    (from..end)
        .find(|&c| !is_cut(masks, c, SOUTH_BIT))
        .unwrap_or(end)
}

// The end of the stretch that begins at `from`, in a row that ends at `end` and may have cut steps.
pub fn stretch_end(grid: CutGrid, from: usize, end: usize, marked: bool) -> usize
    requires { StretchAsked grid.terrain.cells.now grid.masks.now from end marked }
    ensures { Stretch grid.entry.terrain.cells.now grid.entry.masks.now end from result }
{
    let walkable = is_walkable(grid.terrain.cells[from]);
    if walkable & marked {
        return run_end(grid, from + 1, end);
    }
    alike_end(grid.terrain.cells, from, end, walkable)
}

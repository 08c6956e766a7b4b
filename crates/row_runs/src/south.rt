// Two rows of cells, one above the other, are joined by the steps to the south between them.
ghost use Rattle.std.specs.Prelude.{◌≡◌, cond, ℕ, ◌+◌, ◌≤◌, ◌<◌, length, get_or, eqb};
ghost use Rattle.parents.specs.Forest.{Forest};
ghost use Rattle.row_runs.specs.Names.{EastLevel};
ghost use Rattle.row_runs.specs.South.{OverlapAsked, OverlapJoined, RowsAsked, RowsJoined};

use crate::grid::CutGrid;
use crate::row::south_end;
use grid_steps::is_walkable;
use parents::join;

// The end of the stretch that has cell c: what is known, unless a stretch begins at c.
fn end_at(queue: &[u32], c: usize, known: usize) -> usize
    requires { c < length queue.now }
    ensures { result ≡ cond (eqb known c) (get_or queue.now c 0) known }
{
    if known == c {
        return queue[c] as usize;
    }
    known
}

// The cells from `from` up to `end` lie in one stretch, and those below them in another: where both are runs, one uncut step between them joins the two.
fn join_overlap(grid: CutGrid, parents: &mut [u32], from: usize, end: usize)
    requires { OverlapAsked grid.terrain.width grid.terrain.cells.now grid.masks.now parents.old from end }
    ensures { (n : ℕ) (name : ℕ → ℕ) →
        Forest n name parents.old →
        end + grid.entry.terrain.width ≤ n →
        OverlapJoined grid.entry.terrain.width grid.entry.terrain.cells.now grid.entry.masks.now n name from end parents.old parents.new }
{
    if !is_walkable(grid.terrain.cells[from]) {
        return;
    }
    if !is_walkable(grid.terrain.cells[from + grid.terrain.width]) {
        return;
    }
    let c = south_end(grid.masks, from, end);
    if end <= c {
        return;
    }
    join(parents, c, c + grid.terrain.width);
}

// The rows from `up` and from `up` + `width` on, from one end of a stretch to the next.
pub fn join_rows(grid: CutGrid, parents: &mut [u32], queue: &[u32], up: usize)
    requires { RowsAsked grid.terrain.width grid.terrain.cells.now grid.masks.now parents.old queue.now up }
    ensures { (n : ℕ) (name : ℕ → ℕ) →
        Forest n name parents.old →
        up + grid.entry.terrain.width + grid.entry.terrain.width ≤ n →
        EastLevel grid.entry.terrain.cells.now grid.entry.masks.now up (up + grid.entry.terrain.width) name →
        EastLevel grid.entry.terrain.cells.now grid.entry.masks.now (up + grid.entry.terrain.width)
        (up + grid.entry.terrain.width + grid.entry.terrain.width) name →
        RowsJoined grid.entry.terrain.width grid.entry.terrain.cells.now grid.entry.masks.now n name up parents.old parents.new }
{
    let width = grid.terrain.width;
    let row = up + width;
    let mut c = up;
    let mut a = up;
    let mut b = row;
    // Kept: `iter::from_fn` could give the places where stretches of two rows end, with all three in its closure, and is no plainer.
    while c < row {
        a = end_at(queue, c, a);
        b = end_at(queue, c + width, b);
        let e = a.min(b - width);
        join_overlap(grid, parents, c, e);
        c = e;
    }
}

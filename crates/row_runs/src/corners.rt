// Diagonal steps between two rows. Only those beside a mark can join what straight steps do not (proofs/CornerNames).
ghost use Rattle.std.specs.Prelude.{◌≡◌, true, ℕ, ◌+◌, ◌≤◌, ◌<◌, length, get_or};
ghost use Rattle.parents.specs.Forest.{Forest};
ghost use Rattle.row_runs.specs.Names.{EastLevel};
ghost use Rattle.row_runs.specs.South.{SouthLevel};
ghost use Rattle.row_runs.specs.Corners.{is_square, StepAsked, StepJoined, CornersAsked, CornersJoined};
ghost use Rattle.row_runs.specs.Corners.{SquaresAsked, SquaresJoined, DiagonalsAsked, DiagonalsJoined};

use crate::grid::CutGrid;
use crate::row::has_marks;
use grid_steps::grid::{SOUTH_EAST_BIT, SOUTH_WEST_BIT, TerrainGrid};
use grid_steps::{is_cut, is_walkable};
use parents::join;

// Whether no step from cell c or from the next is cut.
fn is_plain(masks: &[u16], c: usize) -> bool
    requires { c + 1 < length masks.now }
    ensures { result ≡ true → (get_or masks.now c 0 ≡ 0) × (get_or masks.now (c + 1) 0 ≡ 0) }
{
    (masks[c] | masks[c + 1]) == 0
}

// Whether the four cells of the square whose upper left is c are walkable.
fn is_square(grid: CutGrid, c: usize) -> bool
    requires { c + grid.terrain.width + 1 < length grid.terrain.cells.now }
    ensures { result ≡ is_square grid.entry.terrain.width grid.entry.terrain.cells.now c }
{
    let TerrainGrid { width, cells, .. } = grid.terrain;
    is_walkable(cells[c])
        && is_walkable(cells[c + 1])
        && is_walkable(cells[c + width])
        && is_walkable(cells[c + width + 1])
}

// Joins a and b, the cells of the step with bit k of a's mask, where it is not cut.
fn join_step(masks: &[u16], parents: &mut [u32], a: usize, k: usize, b: usize)
    requires { StepAsked masks.now parents.old a k b }
    ensures { (n : ℕ) (name : ℕ → ℕ) →
        Forest n name parents.old →
        a < n →
        b < n →
        StepJoined masks.now n name a k b parents.old parents.new }
{
    if is_cut(masks, a, k) {
        return;
    }
    join(parents, a, b);
}

// The two diagonal steps of the square whose upper left is c.
fn join_corners(grid: CutGrid, parents: &mut [u32], c: usize)
    requires { CornersAsked grid.terrain.width grid.terrain.cells.now grid.masks.now parents.old c }
    ensures { (n : ℕ) (name : ℕ → ℕ) →
        Forest n name parents.old →
        c + grid.entry.terrain.width + 1 < n →
        CornersJoined grid.entry.terrain.width grid.entry.terrain.cells.now grid.entry.masks.now n name c parents.old parents.new }
{
    if is_plain(grid.masks, c) {
        return;
    }
    if !is_square(grid, c) {
        return;
    }
    let below = c + grid.terrain.width;
    join_step(grid.masks, parents, c, SOUTH_EAST_BIT, below + 1);
    join_step(grid.masks, parents, c + 1, SOUTH_WEST_BIT, below);
}

// The diagonal steps of all squares whose upper cells are among those from `from` up to `to`.
fn join_squares(grid: CutGrid, parents: &mut [u32], from: usize, to: usize)
    requires { SquaresAsked grid.terrain.width grid.terrain.cells.now grid.masks.now parents.old to }
    ensures { (n : ℕ) (name : ℕ → ℕ) →
        Forest n name parents.old →
        to + grid.entry.terrain.width ≤ n →
        SquaresJoined grid.entry.terrain.width grid.entry.terrain.cells.now grid.entry.masks.now n name from to parents.old parents.new }
{
    for c in from..to.saturating_sub(1) {
        join_corners(grid, parents, c);
    }
}

// How many squares are asked at once. Of most, no cell has a mark; where many have one, so many squares are seldom without, and the test is foreseen.
const BLOCK: usize = 32;

// Those of a block of squares, whose upper cells are those from c on and one more.
fn join_block(grid: CutGrid, parents: &mut [u32], c: usize)
    requires { SquaresAsked grid.terrain.width grid.terrain.cells.now grid.masks.now parents.old (c + 32 + 1) }
    ensures { (n : ℕ) (name : ℕ → ℕ) →
        Forest n name parents.old →
        c + 32 + 1 + grid.entry.terrain.width ≤ n →
        SquaresJoined grid.entry.terrain.width grid.entry.terrain.cells.now grid.entry.masks.now n name c (c + 32 + 1) parents.old parents.new }
{
    let to = c + BLOCK + 1;
    if !has_marks(grid.masks, c, to) {
        return;
    }
    join_squares(grid, parents, c, to);
}

// All squares of the rows from `up` and from `up` + `width` on, block by block, and what is left one by one.
pub fn join_diagonals(grid: CutGrid, parents: &mut [u32], up: usize)
    requires { DiagonalsAsked grid.terrain.width grid.terrain.cells.now grid.masks.now parents.old up }
    ensures { (n : ℕ) (name : ℕ → ℕ) →
        Forest n name parents.old →
        up + grid.entry.terrain.width + grid.entry.terrain.width ≤ n →
        EastLevel grid.entry.terrain.cells.now grid.entry.masks.now up (up + grid.entry.terrain.width) name →
        SouthLevel grid.entry.terrain.width grid.entry.terrain.cells.now grid.entry.masks.now up (up + grid.entry.terrain.width) name →
        DiagonalsJoined grid.entry.terrain.width grid.entry.terrain.cells.now grid.entry.masks.now n name up parents.old parents.new }
{
    let end = up + grid.terrain.width;
    let mut c = up;
    // Kept: a range with `step_by` gives the blocks, but not where the last one ends, from which the rest goes on.
    while c + BLOCK < end {
        join_block(grid, parents, c);
        c += BLOCK;
    }
    join_squares(grid, parents, c, end);
}

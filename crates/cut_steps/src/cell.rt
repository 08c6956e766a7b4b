// The steps of one cell that a span cuts, as a mask of directions: what the walk of a span asks of a cell.
ghost use Rattle.std.specs.Prelude.{◌≡◌, true, false, cond, ◌+◌, ◌*◌, ◌≤◌, ◌<◌, length, ltb, nat_abs};
ghost use Rattle.definitions.specs.Limits.{max_side};
ghost use Rattle.definitions.specs.Grid.{at, walkable, is_step};
ghost use Rattle.span_geometry.specs.Shapes.{Sound, segment_of};
ghost use Rattle.grid_steps.specs.Grids.{terrain_of};
ghost use Rattle.grid_steps.specs.Inner.{Inner};
ghost use Rattle.cut_steps.specs.CutSteps.{is_cut_onward};
ghost use Rattle.cut_steps.specs.Crossed.{InGrid, Crossed, steps_onward, changes_at, SideWord};
ghost use Rattle.cut_steps.specs.Walks.{walk_map, CellIn, CutIn};
ghost use Rattle.cut_steps.specs.Cell.{OnwardAsked, side_of, Uncut, Far, max_reach, onward_mask};

use super::walk::SpanWalk;
use definitions::limits::PIXELS_PER_WALK_CELL;
use grid_steps::grid::{
    Direction, EAST, EAST_BIT, SOUTH, SOUTH_BIT, SOUTH_EAST, SOUTH_EAST_BIT, SOUTH_WEST,
    SOUTH_WEST_BIT, TerrainGrid, WalkPosition,
};
use span_geometry::SpanGeometry;
use span_geometry::numbers::not_negative;
use span_geometry::segments::{cell_center, cross};

// Whether a number is larger in size than a bound.
fn exceeds(z: i64, bound: u64) -> bool
    requires { bound ≤ max_reach }
    ensures { result ≡ ltb bound (nat_abs z) }
{
    z.unsigned_abs() > bound
}

// The side of the span's line on which the centre of a cell lies, as `cross` gives it.
fn side_of(g: SpanGeometry, cell: WalkPosition) -> i64
    requires { Sound g × (cell.x < max_side) × (cell.y < max_side) }
    ensures { result ≡ side_of (segment_of g) (at cell.x cell.y) }
{
    cross(g.ends, cell_center(cell.x as u64, cell.y as u64))
}

// Whether a cell is so far from the span's line that the centre of every neighbour of larger number lies on the same side of it: a step changes the side value
// by at most 8 pixels times both extents of the span. On the positive side its extent along y is enough: the first endpoint is not to the right of the second,
// so that a step to the south never lowers the value.
fn is_far(g: SpanGeometry, cell: WalkPosition) -> bool
    requires { Sound g × (cell.x < max_side) × (cell.y < max_side) }
    ensures { result ≡ true → Far (segment_of g) (at cell.x cell.y) }
{
    let side = side_of(g, cell);
    let run = g.max_x - g.min_x;
    let rise = g.max_y - g.min_y;
    exceeds(side, PIXELS_PER_WALK_CELL * (run + rise))
        | (not_negative(side) & exceeds(side, PIXELS_PER_WALK_CELL * rise))
}

// Whether a cell is so far from the span's line that the centre of its neighbour to the east lies on the same side of it.
fn is_far_eastward(g: SpanGeometry, cell: WalkPosition) -> bool
    requires { Sound g × (cell.x < max_side) × (cell.y < max_side) }
    ensures { result ≡ true → Uncut (segment_of g) (at cell.x cell.y) (at 2 1) }
{
    exceeds(side_of(g, cell), PIXELS_PER_WALK_CELL * (g.max_y - g.min_y))
}

// Whether the cell south of a cell is there and walkable. Every step to the next row asks for it.
fn walks_south(grid: TerrainGrid, cell: WalkPosition) -> bool
    requires { InGrid grid.width grid.height grid.cells.now cell.x cell.y }
    ensures { result ≡ walkable (terrain_of grid.entry) (at cell.x (cell.y + 1)) }
{
    cell.y + 1 < grid.height && grid.walks(cell.x, cell.y + 1)
}

// The value where the test holds, else 0.
fn value_if(test: bool, value: u16) -> u16
    ensures { (result ≡ cond test value 0) × (result ≤ value) }
{
    if test { value } else { 0 }
}

const EAST_MASK: u16 = 1 << EAST_BIT;

const SOUTH_WEST_MASK: u16 = 1 << SOUTH_WEST_BIT;

const SOUTH_MASK: u16 = 1 << SOUTH_BIT;

const SOUTH_EAST_MASK: u16 = 1 << SOUTH_EAST_BIT;

// A bit for each of the four directions that lead to larger numbers.
fn onward_mask(east: bool, south_west: bool, south: bool, south_east: bool) -> u16
    ensures { result ≡ onward_mask east south_west south south_east }
{
    value_if(east, EAST_MASK)
        + value_if(south_west, SOUTH_WEST_MASK)
        + value_if(south, SOUTH_MASK)
        + value_if(south_east, SOUTH_EAST_MASK)
}

// The steps from a walkable cell to cells of larger number, a bit for each, where all cells about it but those of the row before are in the grid.
fn steps_inside(grid: TerrainGrid, cell: WalkPosition) -> u16
    requires asked { InGrid grid.width grid.height grid.cells.now cell.x cell.y × (walkable (terrain_of grid) (at cell.x cell.y) ≡ true) }
    requires inside { (1 ≤ cell.x) × (cell.x + 1 < grid.width) × (cell.y + 1 < grid.height) }
    ensures { result ≡ steps_onward (terrain_of grid.entry) (at cell.x cell.y) }
{
    let WalkPosition { x, y } = cell;
    let east = grid.walks(x + 1, y);
    let south = grid.walks(x, y + 1);
    let west = grid.walks(x - 1, y);
    let south_west = grid.walks(x - 1, y + 1);
    let south_east = grid.walks(x + 1, y + 1);
    onward_mask(
        east,
        south_west & west & south,
        south,
        south_east & east & south,
    )
}

// Whether the step from a walkable cell in a direction is there.
fn is_there(grid: TerrainGrid, cell: WalkPosition, direction: Direction) -> bool
    requires asked { InGrid grid.width grid.height grid.cells.now cell.x cell.y × (walkable (terrain_of grid) (at cell.x cell.y) ≡ true) }
    requires near { (direction.dx ≤ 2) × (direction.dy ≤ 2) }
    ensures { result ≡ is_step (terrain_of grid.entry) (at cell.x cell.y) (at direction.dx direction.dy) }
{
    grid.is_inside(cell, direction) && grid.is_step(cell, direction)
}

// The steps from a walkable cell to cells of larger number, a bit for each.
fn steps_onward(grid: TerrainGrid, cell: WalkPosition) -> u16
    requires { InGrid grid.width grid.height grid.cells.now cell.x cell.y × (walkable (terrain_of grid) (at cell.x cell.y) ≡ true) }
    ensures { result ≡ steps_onward (terrain_of grid.entry) (at cell.x cell.y) }
{
    if (1 <= cell.x) & (cell.x + 1 < grid.width) & (cell.y + 1 < grid.height) {
        return steps_inside(grid, cell);
    }
    onward_mask(
        is_there(grid, cell, EAST),
        is_there(grid, cell, SOUTH_WEST),
        is_there(grid, cell, SOUTH),
        is_there(grid, cell, SOUTH_EAST),
    )
}

// The changes of sides about the first place past the line: sixteen bits for each first place in the column, or row, after it, and of these four for each
// of four places, east, south-west, south and south-east. Along columns a word for the first place in the column before, above, level or below; along
// rows it does not matter.
const ABOVE_BEFORE: u64 = 0x016200e200fa00fb;

const LEVEL_BEFORE: u64 = 0x016000e000f800f9;

const BELOW_BEFORE: u64 = 0x014000c000d800d9;

const ALONG_ROWS: u64 = 0x2610029000d800fc;

// The word of changes of sides along columns.
fn column_word(back: usize) -> u64
    requires { back ≤ 3 }
    ensures { SideWord true back result }
{
    match back {
        0 | 1 => ABOVE_BEFORE,
        2 => LEVEL_BEFORE,
        _ => BELOW_BEFORE,
    }
}

// The word of changes of sides.
fn side_word(columns: bool, back: usize) -> u64
    requires { back ≤ 3 }
    ensures { SideWord columns back result }
{
    if columns {
        column_word(back)
    } else {
        ALONG_ROWS
    }
}

// Which steps to cells of larger number change sides, a bit for each, from the cell that is j - 2 beyond the first place past the line in its column,
// or row. The first places in the columns, or rows, before and after it are back - 2 and ahead - 2 beyond.
pub fn side_changes(columns: bool, back: usize, ahead: usize, j: usize) -> u16
    requires { (back ≤ 3) × (ahead ≤ 3) × (j ≤ 3) }
    ensures { result ≡ changes_at columns back 2 ahead j }
{
    let places = side_word(columns, back) >> (16 * ahead + 4 * j);
    (places % 16 * 32) as u16
}

impl SpanWalk<'_> {
    // Whether a cell is walkable and may have a cut step to a cell of larger number: of most candidates these tests say that it has none.
    pub fn is_near(&self, cell: WalkPosition) -> bool
        requires { CellIn self.now cell }
        ensures where_true { result ≡ true → walkable (walk_map self.now) (at cell.x cell.y) ≡ true }
        ensures where_false { result ≡ false → CutIn self.now cell 0 }
    {
        self.grid.walks(cell.x, cell.y)
            && !is_far(self.g, cell)
            && (walks_south(self.grid, cell) || !is_far_eastward(self.g, cell))
    }

    // Whether the step from a walkable cell in a direction to cells of larger number is there and is cut.
    fn is_cut_onward(&self, inner: bool, cell: WalkPosition, direction: Direction) -> bool
        requires asked { OnwardAsked self.now.grid.width self.now.grid.height self.now.grid.cells.now self.now.g cell.x cell.y direction.dx direction.dy }
        requires inner_cell { inner ≡ true → Inner self.now.grid.width self.now.grid.height cell.x cell.y }
        ensures { result ≡ is_cut_onward (walk_map self.now) (segment_of self.now.g) (at cell.x cell.y) (at direction.dx direction.dy) }
    {
        let WalkPosition { x, y } = cell;
        let Direction { dx, dy } = direction;
        (inner || self.grid.is_inside(cell, direction))
            && self.grid.is_step(cell, direction)
            && self.g.cuts(x as u64, y as u64, (x + dx - 1) as u64, (y + dy - 1) as u64)
    }

    // Whether the step east from a walkable cell is there and is cut. Beside a flat span most are ruled out by the first test.
    fn is_cut_east(&self, inner: bool, cell: WalkPosition) -> bool
        requires asked { OnwardAsked self.now.grid.width self.now.grid.height self.now.grid.cells.now self.now.g cell.x cell.y 2 1 }
        requires inner_cell { inner ≡ true → Inner self.now.grid.width self.now.grid.height cell.x cell.y }
        ensures { result ≡ is_cut_onward (walk_map self.now) (segment_of self.now.g) (at cell.x cell.y) (at 2 1) }
    {
        !is_far_eastward(self.g, cell) && self.is_cut_onward(inner, cell, EAST)
    }

    // The directions of a walkable cell in which a step leads to a cell of larger number and is cut, a bit for each.
    pub fn cut_directions(&self, cell: WalkPosition) -> u16
        requires asked { CellIn self.now cell }
        requires walkable_cell { walkable (walk_map self.now) (at cell.x cell.y) ≡ true }
        ensures { CutIn self.now cell result }
    {
        let inner = self.grid.is_inner(cell);
        onward_mask(
            self.is_cut_east(inner, cell),
            self.is_cut_onward(inner, cell, SOUTH_WEST),
            self.is_cut_onward(inner, cell, SOUTH),
            self.is_cut_onward(inner, cell, SOUTH_EAST),
        )
    }

    // The directions of a cell in which a step leads to a cell of larger number and is cut, a bit for each. The cell is between the span's ends, and its
    // changes of sides are given.
    pub fn crossed_directions(&self, cell: WalkPosition, changes: u16) -> u16
        requires asked { CellIn self.now cell }
        requires crossed { Crossed (segment_of self.now.g) (at cell.x cell.y) changes }
        ensures { CutIn self.now cell result }
    {
        if !self.grid.walks(cell.x, cell.y) {
            return 0;
        }
        changes & steps_onward(self.grid, cell)
    }
}

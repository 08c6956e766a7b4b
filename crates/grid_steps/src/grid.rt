// The grid of a map, as lent, its cells and the directions of its steps, those of `neighbors` of lib.rs.
ghost use Rattle.std.specs.Prelude.{◌≡◌, true, ◌+◌, ◌-◌, ◌*◌, ◌≤◌, ◌<◌, length};
ghost use Rattle.definitions.specs.Grid.{at, walkable, is_step};
ghost use Rattle.grid_steps.specs.Masks.{bit_of};
ghost use Rattle.grid_steps.specs.Grids.{terrain_of};
ghost use Rattle.grid_steps.specs.Inner.{Nearby, Inner, Inside, Says, Stepping};

use crate::is_walkable;

// `TerrainGrid` of lib.rs: its sides, and a byte for each cell, row by row.
#[derive(Clone, Copy)]
pub struct TerrainGrid<'a> {
    pub width: usize,
    pub height: usize,
    pub cells: &'a [u8],
}

// `WalkPosition` of lib.rs: a cell.
#[derive(Clone, Copy)]
pub struct WalkPosition {
    pub x: usize,
    pub y: usize,
}

// A direction, moved by (1, 1): each number is 0, 1 or 2.
#[derive(Clone, Copy)]
pub struct Direction {
    pub dx: usize,
    pub dy: usize,
}

impl Direction {
    // Its bit in a mask of cut steps: its place in the three by three square around the cell, row by row from 0.
    pub fn bit(self) -> usize
        requires { (self.dx ≤ 2) × (self.dy ≤ 2) }
        ensures { result ≡ bit_of (at self.dx self.dy) }
    {
        self.dy * 3 + self.dx
    }
}

impl WalkPosition {
    // The position in a direction.
    pub fn towards(self, direction: Direction) -> WalkPosition
        requires whole { (1 ≤ self.x + direction.dx) × (1 ≤ self.y + direction.dy) }
        requires small { (self.x ≤ 1024) × (self.y ≤ 1024) × (direction.dx ≤ 2) × (direction.dy ≤ 2) }
        ensures { (result.x ≡ self.x + direction.dx - 1) × (result.y ≡ self.y + direction.dy - 1) }
    {
        WalkPosition {
            x: self.x + direction.dx - 1,
            y: self.y + direction.dy - 1,
        }
    }
}

// The four directions to cells of larger number.
pub const EAST: Direction = Direction { dx: 2, dy: 1 };

pub const SOUTH_WEST: Direction = Direction { dx: 0, dy: 2 };

pub const SOUTH: Direction = Direction { dx: 1, dy: 2 };

pub const SOUTH_EAST: Direction = Direction { dx: 2, dy: 2 };

// The bit of each in a mask of cut steps.
// Kept: by the formula of `Direction::bit`, since a constant's value cannot call a function, and the masks of `onward_mask` (cut_steps), made of these, are
// constants themselves.
pub const EAST_BIT: usize = EAST.dy * 3 + EAST.dx;

pub const SOUTH_WEST_BIT: usize = SOUTH_WEST.dy * 3 + SOUTH_WEST.dx;

pub const SOUTH_BIT: usize = SOUTH.dy * 3 + SOUTH.dx;

pub const SOUTH_EAST_BIT: usize = SOUTH_EAST.dy * 3 + SOUTH_EAST.dx;

impl TerrainGrid<'_> {
    // The number of a cell, row by row from 0.
    pub fn index(self, cell: WalkPosition) -> usize
        requires { (self.width ≤ 1024) × (self.height ≤ 1024) × (cell.x < self.width) × (cell.y < self.height) }
        ensures { result ≡ cell.y * self.entry.width + cell.x }
    {
        cell.y * self.width + cell.x
    }

    // Whether cell (x, y) is walkable.
    pub fn walks(self, x: usize, y: usize) -> bool
        requires sides { (self.width ≤ 1024) × (self.height ≤ 1024) × (length self.cells.now ≡ self.height * self.width) }
        requires within { (x < self.width) × (y < self.height) }
        ensures { result ≡ walkable (terrain_of self.entry) (at x y) }
    {
        is_walkable(self.cells[y * self.width + x])
    }

    // Whether every neighbour of a cell is in the grid.
    pub fn is_inner(self, cell: WalkPosition) -> bool
        requires { (self.width ≤ 1024) × (self.height ≤ 1024) × (cell.x < self.width) × (cell.y < self.height) }
        ensures { result ≡ true → Inner self.entry.width self.entry.height cell.x cell.y }
    {
        1 <= cell.x && 1 <= cell.y && cell.x + 1 < self.width && cell.y + 1 < self.height
    }

    // Whether the position in a direction of a cell is in the grid.
    pub fn is_inside(self, cell: WalkPosition, direction: Direction) -> bool
        requires { Nearby self.width self.height cell.x cell.y direction.dx direction.dy }
        ensures { Says result (Inside self.entry.width self.entry.height cell.x cell.y direction.dx direction.dy) }
    {
        let Direction { dx, dy } = direction;
        1 <= cell.x + dx
            && 1 <= cell.y + dy
            && cell.x + dx <= self.width
            && cell.y + dy <= self.height
    }

    // Whether a step joins a walkable cell and its neighbour in a direction. Of a straight step the two side cells are the two cells themselves.
    pub fn is_step(self, cell: WalkPosition, direction: Direction) -> bool
        requires { Stepping self.width self.height self.cells.now cell.x cell.y direction.dx direction.dy }
        ensures { result ≡ is_step (terrain_of self.entry) (at cell.x cell.y) (at direction.dx direction.dy) }
    {
        let WalkPosition { x, y } = cell;
        let i = x + direction.dx - 1;
        let j = y + direction.dy - 1;
        self.walks(i, j) && self.walks(i, y) && self.walks(x, j)
    }
}

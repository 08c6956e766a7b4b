// What a call on a map is asked: the map with its spans, the boundaries and the anchors, as lent, so that the sides may be any numbers.

ghost use Rattle.std.specs.Prelude.{◌≡◌};
ghost use Rattle.call_partition.specs.Asking.{grid_in};

use grid_steps::grid::TerrainGrid;

#[derive(Clone, Copy)]
pub struct Asked<'a> {
    pub width: u64,
    pub height: u64,
    pub cells: &'a [u8],
    pub spans: &'a [u64],
    pub boundaries: &'a [u64],
    pub anchors: &'a [u64],
}

impl<'a> Asked<'a> {
    pub fn grid(self) -> TerrainGrid<'a>
        ensures { result ≡ grid_in self.entry }
    {
        TerrainGrid {
            width: self.width as usize,
            height: self.height as usize,
            cells: self.cells,
        }
    }
}

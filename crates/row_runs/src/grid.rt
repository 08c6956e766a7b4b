// The grid of a map with the masks of its cut steps, row by row, as every function on rows reads them.
use grid_steps::grid::TerrainGrid;

#[derive(Clone, Copy)]
pub struct CutGrid<'a> {
    pub terrain: TerrainGrid<'a>,
    pub masks: &'a [u16],
}

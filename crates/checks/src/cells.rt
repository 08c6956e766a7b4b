// The check of cells: number 9.
ghost use Rattle.std.specs.Prelude.{◌≡◌, ◌&&◌, not, leb};
ghost use Rattle.definitions.specs.Grid.{is_walkable, elevation};
ghost use Rattle.definitions.specs.Refusals.{elevations_fault};

// "walkable cell of elevation 4 or more"
pub fn elevation_fits(cell: u8) -> bool
    ensures { result ≡ not (is_walkable cell && leb 4 (elevation cell)) }
{
    !((cell % 2 == 1) & (4 <= cell / 4))
}

pub fn elevations_fault(cells: &[u8]) -> Option<usize>
    ensures { result ≡ elevations_fault cells.now }
{
    cells.iter().position(|&cell| !elevation_fits(cell))
}

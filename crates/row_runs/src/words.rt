// Eight cells at a time, as a word of which the compiler makes one load: whether a cell is walkable is the lowest bit of its byte.
ghost use Rattle.std.specs.Prelude.{◌≡◌, not, ◌+◌, ◌/◌, ◌≤◌, ◌<◌, length};
ghost use Rattle.std.specs.Int.Count.{count_trailing_zeros};
ghost use Rattle.row_runs.specs.Stretch.{walks, walks_as};
ghost use Rattle.row_runs.specs.Words.{stops, FirstOfEight};

const LOW_BITS: u64 = 0x01_01_01_01_01_01_01_01;

// The walkable ones of the eight cells from c on.
fn open_flags(cells: &[u8], c: usize) -> u64
    requires { c + 8 ≤ length cells.now }
    ensures { result ≡ stops 8 (λ d. not (walks cells.now d)) c }
{
    u64::from_le_bytes([
        cells[c],
        cells[c + 1],
        cells[c + 2],
        cells[c + 3],
        cells[c + 4],
        cells[c + 5],
        cells[c + 6],
        cells[c + 7],
    ]) & LOW_BITS
}

// Those of the eight that are not as `walkable` says.
fn unlike_flags(cells: &[u8], c: usize, walkable: bool) -> u64
    requires { c + 8 ≤ length cells.now }
    ensures { result ≡ stops 8 (walks_as walkable cells.now) c }
{
    let flags = open_flags(cells, c);
    if walkable { LOW_BITS - flags } else { flags }
}

// The byte with the lowest flag.
fn first_flag(flags: u64) -> usize
    ensures { result ≡ count_trailing_zeros 64 flags / 8 }
{
    (u64::trailing_zeros(flags) / 8) as usize
}

// The first of the eight cells from c on that is not as `walkable` says.
pub fn first_unlike(cells: &[u8], c: usize, walkable: bool) -> Option<usize>
    requires { c + 8 ≤ length cells.now }
    ensures { FirstOfEight (walks_as walkable cells.now) c result }
{
    let flags = unlike_flags(cells, c, walkable);
    if flags == 0 {
        return None;
    }
    Some(c + first_flag(flags))
}

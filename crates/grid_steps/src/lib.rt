// The grid of a map and its steps, and the bits of masks of cut steps, numbered as by `edge_bit` of areas.rs.

#![tactic(auto)]

pub mod grid;

ghost use Rattle.std.specs.Prelude.{◌≡◌, ◌<◌, length};
ghost use Rattle.definitions.specs.Grid.{is_walkable};
ghost use Rattle.grid_steps.specs.Masks.{cut_bit, is_set};
ghost use Rattle.grid_steps.specs.Walk.{direction_at};
ghost use Rattle.grid_steps.specs.Inner.{placed};

// The eight directions, in the order of `neighbors` of lib.rs, the first in the lowest byte: 1, 3, 5, 7, 0, 2, 6, 8. Each is its place in the three by three
// square around the cell, row by row from 0, which is also its bit in a mask of cut steps.
// Kept: one word and no array of eight places, with which a walk over the steps took twice the instructions (docs/REQUESTS.md, request 5); and kept though the
// walks of this library ask for four steps by name: the promise `directions_as_bytes` speaks of this word, and only here is it code that is checked against it
// (must-fail/two_directions_exchanged): without `place_at` the promise would be one of a number that stands in no code.
const DIRECTIONS: u64 = 0x08_06_02_00_07_05_03_01;

// The place of direction d.
pub fn place_at(d: usize) -> usize
    requires { d < 8 }
    ensures direction { placed result ≡ direction_at d }
    ensures bound { result < 9 }
{
    ((DIRECTIONS >> (8 * d)) % 256) as usize
}

// Whether a cell is walkable: the lowest bit of its byte.
pub fn is_walkable(cell: u8) -> bool
    ensures { result ≡ is_walkable cell }
{
    cell % 2 == 1
}

// Whether bit k of a mask is set.
pub fn is_set(mask: u16, k: usize) -> bool
    requires { k < 9 }
    ensures { result ≡ is_set mask k }
{
    (mask >> k) % 2 == 1
}

// Whether bit k of cell c's mask is set.
pub fn is_cut(masks: &[u16], c: usize, k: usize) -> bool
    requires masks_room { c < length masks.now }
    requires k_within { k < 9 }
    ensures { result ≡ cut_bit masks.now c k }
{
    is_set(masks[c], k)
}

// The check of boundaries: number 7.
ghost use Rattle.std.specs.Prelude.{◌≡◌, ◌≤◌};
ghost use Rattle.definitions.specs.Limits.{max_side};
ghost use Rattle.definitions.specs.Grid.{boundary_at};
ghost use Rattle.definitions.specs.Refusals.{width_fits, ramp_fits, boundary_fits, boundaries_fault};

use crate::spans::both_on_map;
use definitions::limits::{MAX_WIDTH_BITS, NUMBERS_PER_BOUNDARY};

// "width not finite, sign bit set, or over 65,536": one comparison, as the bits of an infinity, of a NaN and of what has its sign set are larger.
fn width_fits(bits: u64) -> bool
    ensures { result ≡ width_fits bits }
{
    bits <= MAX_WIDTH_BITS
}

// "kind over 2; id over 32 bits; elevation over 7; kind 0 with a non-zero tail"
fn ramp_fits(boundary: &[u64; NUMBERS_PER_BOUNDARY]) -> bool
    ensures { result ≡ ramp_fits (boundary_at boundary.now 0) }
{
    let [_, _, _, _, _, kind, id, lower, upper] = *boundary;
    (kind <= 2)
        & u32::try_from(id).is_ok()
        & (lower <= 7)
        & (upper <= 7)
        & ((kind != 0) | ((id == 0) & (lower == 0) & (upper == 0)))
}

fn boundary_fits(width: u64, height: u64, boundary: &[u64; NUMBERS_PER_BOUNDARY]) -> bool
    requires { (width ≤ max_side) × (height ≤ max_side) }
    ensures { result ≡ boundary_fits width height (boundary_at boundary.now 0) }
{
    let [x0, y0, x1, y1, bits, _, _, _, _] = *boundary;
    both_on_map(width, height, &[x0, y0, x1, y1]) & width_fits(bits) & ramp_fits(boundary)
}

pub fn boundaries_fault(width: u64, height: u64, boundaries: &[u64]) -> Option<usize>
    requires { (width ≤ max_side) × (height ≤ max_side) }
    ensures { result ≡ boundaries_fault width height boundaries.now }
{
    let (boundaries, _) = boundaries.as_chunks::<NUMBERS_PER_BOUNDARY>();
    boundaries
        .iter()
        .position(|boundary| !boundary_fits(width, height, boundary))
}

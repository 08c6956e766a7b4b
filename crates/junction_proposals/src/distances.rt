// How far boundaries are apart.
ghost use Rattle.std.specs.Prelude.{◌≡◌};
ghost use Rattle.junction_proposals.specs.Unions.{is_near, passes_at};
ghost use Rattle.geometry.specs.Placed.{Placed};

use geometry::boundaries::{center_of, width_at};
use geometry::points::within_distance;

const MAX_PORT_DISTANCE_PIXELS: f64 = 384.0;

// Whether boundary j, a port, is near boundary i.
pub fn is_near_port(boundaries: &[u64], i: usize, j: usize) -> bool
    requires { Placed boundaries.now i × Placed boundaries.now j }
    ensures { result ≡ is_near boundaries.now i j }
{
    within_distance(
        center_of(boundaries, i),
        center_of(boundaries, j),
        MAX_PORT_DISTANCE_PIXELS,
    )
}

// What is asked of port j of boundary i besides: it is near, and no wider where exactly one region of the union is anchored. Widths are finite and their sign
// bit is clear, so that they compare as their bits.
pub fn port_passes(boundaries: &[u64], one: bool, i: usize, j: usize) -> bool
    requires { Placed boundaries.now i × Placed boundaries.now j }
    ensures { result ≡ passes_at boundaries.now one i j }
{
    let own = width_at(boundaries, i);
    let other = width_at(boundaries, j);
    (!one | (other <= own)) & is_near_port(boundaries, i, j)
}

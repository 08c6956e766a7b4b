// What is measured of a mouth and a ramp, two boundaries of the list.
ghost use Rattle.std.specs.Prelude.{◌≡◌, not, ◌||◌, ℕ, ◌<◌};
ghost use Rattle.std.specs.Float.Ieee.{lt};
ghost use Rattle.definitions.specs.Context.{Context};
ghost use Rattle.definitions.specs.RampMouths.{max_mouth_distance, nearby_representative, overlay_representative, overlay_only, separation_of};
ghost use Rattle.context.specs.Shown.{ShownBoundaries};
ghost use Rattle.mouth_proposals.specs.Lent.{Placed};
ghost use Rattle.mouth_proposals.specs.Candidates.{Measured};

use geometry::boundaries::segment_of;
use geometry::numbers::{fmax, fmin};
use geometry::ramp_geometry::{
    is_nearby_parallel_representative, overlapping_ramp_representative, segment_distance,
};
use geometry::widths::{is_twice_as_wide, width_of};

const MAX_MOUTH_DISTANCE: f64 = 224.0;

const MAX_OVERLAY_WIDTH_RATIO: f64 = 1.5;

// Whether the mouth is broad, and whether it represents the ramp, close by or as an overlay.
#[derive(Clone, Copy)]
pub struct Measures {
    pub broad: bool,
    pub nearby: bool,
    pub overlay: bool,
}

impl Measures {
    pub fn of(boundaries: &[u64], m: usize, a: usize) -> Self
        requires { Placed boundaries.now m × Placed boundaries.now a }
        ensures { (C : Context) → ShownBoundaries C boundaries.now → m < C.count → a < C.count → Measured C m a result }
    {
        Self {
            broad: is_twice_as_wide(boundaries, m, a),
            nearby: nearby_representative(boundaries, m, a),
            overlay: overlay_representative(boundaries, m, a),
        }
    }

    // Whether one of the three holds.
    pub fn any(self) -> bool
        ensures { result ≡ ((self.broad || self.nearby) || self.overlay) }
    {
        self.broad | self.nearby | self.overlay
    }

    pub fn overlay_only(self) -> bool
        ensures { (C : Context) (m a : ℕ) → Measured C m a self → result ≡ overlay_only C m a }
    {
        self.overlay & !self.nearby & !self.broad
    }
}

fn nearby_representative(boundaries: &[u64], m: usize, a: usize) -> bool
    requires { Placed boundaries.now m × Placed boundaries.now a }
    ensures { (C : Context) → ShownBoundaries C boundaries.now → m < C.count → a < C.count → result ≡ nearby_representative C m a }
{
    is_nearby_parallel_representative(segment_of(boundaries, m), segment_of(boundaries, a))
}

// The widths are compared before the endpoints.
fn overlay_representative(boundaries: &[u64], m: usize, a: usize) -> bool
    requires { Placed boundaries.now m × Placed boundaries.now a }
    ensures { (C : Context) → ShownBoundaries C boundaries.now → m < C.count → a < C.count → result ≡ overlay_representative C m a }
{
    let mouth = width_of(boundaries, m);
    let ramp = width_of(boundaries, a);
    fmax(mouth, ramp) <= MAX_OVERLAY_WIDTH_RATIO * fmin(mouth, ramp)
        && overlapping_ramp_representative(segment_of(boundaries, m), segment_of(boundaries, a))
}

// How far the mouth is from the ramp, from endpoints as written.
pub fn separation_of(boundaries: &[u64], m: usize, a: usize) -> f64
    requires { Placed boundaries.now m × Placed boundaries.now a }
    ensures { (C : Context) → ShownBoundaries C boundaries.now → m < C.count → a < C.count → result ≡ separation_of C m a }
{
    segment_distance(segment_of(boundaries, m), segment_of(boundaries, a))
}

// Whether a separation is that of a mouth of the ramp.
pub fn is_close(separation: f64) -> bool
    ensures { result ≡ not (lt max_mouth_distance separation) }
{
    !(separation > MAX_MOUTH_DISTANCE)
}

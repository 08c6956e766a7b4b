// What is asked of the two ports of a candidate, and of the record of each region about it.
ghost use Rattle.std.specs.Prelude.{◌≡◌, ℕ, ◌*◌, ◌<◌};
ghost use Rattle.definitions.specs.Scan.{all_below};
ghost use Rattle.definitions.specs.Context.{Context};
ghost use Rattle.definitions.specs.RampInteriors.{ports_fit, region_fits};
ghost use Rattle.laws.specs.FloatLaws.DistanceRange.{DistanceInRange};
ghost use Rattle.laws.specs.FloatLaws.PassRange.{PassInRange};
ghost use Rattle.geometry.specs.Forms.{point_form};
ghost use Rattle.context.specs.Shown.{ShownBoundaries, ShownTallies};
ghost use Rattle.context.specs.Records.{record_of};
ghost use Rattle.interior_proposals.specs.Fits.{Listed, Aimed, elevation_fits, is_within};
ghost use Rattle.geometry.specs.Placed.{Placed};

use crate::ports::Ports;
use context::{MAX_APPROACH_RADIUS, PartitionContext, Region};
use geometry::Point;
use geometry::boundaries::{center_of, has_ramp, lower_at, ramp_at, same_kind, upper_at};
use geometry::points::within_distance;

const ELEVATIONS: u32 = 8;

// What the regions of a candidate have to keep to: the elevations of its ramp, and a distance from the centers of its two ports.
#[derive(Clone, Copy)]
pub struct Reach {
    pub lower: u64,
    pub upper: u64,
    pub first: Point,
    pub second: Point,
}

// Whether both ports are full cuts and the two ends of one ramp.
pub fn ports_fit(context: PartitionContext, ports: Ports) -> bool
    requires first_listed { Listed context.boundaries.now context.tallies.now ports.first }
    requires second_listed { Listed context.boundaries.now context.tallies.now ports.second }
    ensures { (C : Context) →
        ShownBoundaries C context.entry.boundaries.now →
        ShownTallies C context.entry.tallies.now →
        ports.first < C.count →
        ports.second < C.count →
        result ≡ ports_fit C ports.first ports.second }
{
    let same_ramp = ramp_at(context.boundaries, ports.first)
        == ramp_at(context.boundaries, ports.second);
    has_ramp(context.boundaries, ports.first)
        & has_ramp(context.boundaries, ports.second)
        & context.full_cut(ports.first)
        & context.full_cut(ports.second)
        & same_ramp
        & !same_kind(context.boundaries, ports.first, ports.second)
}

// The reach of two ports.
pub fn reach_of(boundaries: &[u64], ports: Ports) -> Reach
    requires { Placed boundaries.now ports.first × Placed boundaries.now ports.second }
    ensures { (C : Context) →
        ShownBoundaries C boundaries.now →
        ports.first < C.count →
        ports.second < C.count →
        Aimed C ports.first ports.second result }
{
    Reach {
        lower: lower_at(boundaries, ports.first),
        upper: upper_at(boundaries, ports.first),
        first: center_of(boundaries, ports.first),
        second: center_of(boundaries, ports.second),
    }
}

// Whether elevation e is one of two where the mask has it.
fn elevation_fits(mask: u8, lower: u64, upper: u64, e: u32) -> bool
    requires { e < 8 }
    ensures { result ≡ elevation_fits mask lower upper e }
{
    let wide = e as u64;
    ((mask >> e) % 2 != 1) | ((wide == lower) | (wide == upper))
}

// Whether the mask has no elevation but these two.
fn elevations_fit(mask: u8, lower: u64, upper: u64) -> bool
    ensures { result ≡ all_below 8 (elevation_fits mask lower upper) }
{
    (0..ELEVATIONS).all(|e| elevation_fits(mask, lower, upper, e))
}

// Whether a corner is within the radius of one of the two centers.
fn corner_fits(first: Point, second: Point, corner: Point) -> bool
    ensures { DistanceInRange (point_form corner) (point_form first) →
        DistanceInRange (point_form corner) (point_form second) →
        result ≡ is_within (point_form first) (point_form second) (point_form corner) }
{
    // Most corners are near the first, and a distance takes long.
    within_distance(corner, first, MAX_APPROACH_RADIUS)
        || within_distance(corner, second, MAX_APPROACH_RADIUS)
}

// Whether a region has the elevations of the ramp, and each corner near one of the ports.
pub fn region_fits(reach: Reach, region: Region) -> bool
    ensures { (C : Context) (a b q : ℕ) → Aimed C a b reach → record_of region ≡ C.region q → PassInRange C → result ≡ region_fits C a b q }
{
    if !elevations_fit(region.elevations, reach.lower, reach.upper) {
        return false;
    }
    region
        .corners()
        .iter()
        .all(|&corner| corner_fits(reach.first, reach.second, corner))
}

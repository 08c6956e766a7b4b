// What pass 3, `remove_junction_boundaries` of junctions.rs, asks of the records of a proposal's regions, by value.

#![tactic(auto)]

ghost use Rattle.std.specs.Prelude.{◌≡◌, ◌-◌, ◌≤◌};
ghost use Rattle.definitions.specs.RegionRecord.{accepts, same_dominance};
ghost use Rattle.definitions.specs.Context.{Context};
ghost use Rattle.definitions.specs.Junctions.{within_radius, within_span_radius};
ghost use Rattle.laws.specs.FloatLaws.DistanceRange.{DistanceInRange, nearest_point};
ghost use Rattle.laws.specs.FloatLaws.Pixels.{PixelRegion, HalfPixelPoint};
ghost use Rattle.span_geometry.specs.Shapes.{InLimits};
ghost use Rattle.elevations.specs.Forms.{share_form};
ghost use Rattle.geometry.specs.Forms.{point_form, segment_form};
ghost use Rattle.context.specs.Records.{record_of, Counted};
ghost use Rattle.junction_proposals.specs.Rows.{form, is_allowed};
ghost use Rattle.junction_regions.specs.Tests.{near_middle, near_span, accepted_of, is_local, union_of, bridge_of};
ghost use Rattle.junction_regions.specs.Asked.{OnMap, Asked};

use context::Region;
use context::region_marks::is_anchored;
use elevations::Share;
use geometry::boundaries::segment_of;
use geometry::points::{center, point, point_segment_distance, within_distance};
use geometry::{Point, Segment};
use junction_proposals::proposals::Candidate;

const MAX_UNION_RADIUS_PIXELS: f64 = 512.0;

const ACCEPTED_PERCENT: usize = 99;

// ---- how far a region's corners lie

fn near_middle(corner: Point, middle: Point) -> bool
    ensures { DistanceInRange (point_form corner) (point_form middle) → result ≡ near_middle (point_form middle) (point_form corner) }
{
    within_distance(corner, middle, MAX_UNION_RADIUS_PIXELS)
}

// The span goes from a to b.
fn near_span(corner: Point, a: Point, b: Point) -> bool
    ensures { DistanceInRange (point_form corner) (nearest_point (point_form corner) (point_form a) (point_form b)) →
        result ≡ near_span (point_form a) (point_form b) (point_form corner) }
{
    point_segment_distance(corner, a, b) <= MAX_UNION_RADIUS_PIXELS
}

pub fn within_radius(region: Region, middle: Point) -> bool
    requires { PixelRegion (record_of region) × HalfPixelPoint (point_form middle) }
    ensures { result ≡ within_radius (record_of region) (point_form middle) }
{
    let corners = region.corners();
    let near = corners.iter().all(|&corner| near_middle(corner, middle));
    (0 < region.cells) & near
}

pub fn within_span_radius(region: Region, span: Segment) -> bool
    requires { PixelRegion (record_of region) × (InLimits span.a × InLimits span.b) }
    ensures { result ≡ within_span_radius (record_of region) (segment_form span) }
{
    let corners = region.corners();
    let start = point(span.a);
    let end = point(span.b);
    let near = corners.iter().all(|&corner| near_span(corner, start, end));
    (0 < region.cells) & near
}

// ---- the regions of a union and of a bridge; `ends` are those of the boundary that would go

// Whether both regions of a union are near: the boundary where exactly one of them is anchored, and else its center.
fn is_local(first: Region, second: Region, ends: Segment, one: bool) -> bool
    requires { PixelRegion (record_of first) × (PixelRegion (record_of second) × (InLimits ends.a × InLimits ends.b)) }
    ensures { result ≡ is_local (record_of first) (record_of second) (segment_form ends) one }
{
    if one {
        return within_span_radius(first, ends) & within_span_radius(second, ends);
    }
    let middle = center(ends.a, ends.b);
    within_radius(first, middle) & within_radius(second, middle)
}

// Unions accept at 99 percent.
fn is_accepted(share: Option<Share>) -> bool
    ensures { result ≡ accepts (share_form share) }
{
    share.is_some_and(|s| ACCEPTED_PERCENT <= s.percent)
}

// The elevation of most cells, if its share is accepted.
fn accepted_elevation(region: Region) -> Option<usize>
    requires { Counted (record_of region) }
    ensures { result ≡ accepted_of (record_of region) }
{
    let dominance = region.dominance();
    is_accepted(dominance.share).then_some(dominance.elevation)
}

// Whether both regions have an elevation of an accepted share, and it is the same.
fn same_dominance(first: Region, second: Region) -> bool
    requires { Counted (record_of first) × Counted (record_of second) }
    ensures { result ≡ same_dominance (record_of first) (record_of second) }
{
    let elevation = accepted_elevation(first);
    let other = accepted_elevation(second);
    elevation.is_some() & (elevation == other)
}

pub fn union_regions(first: Region, second: Region, ends: Segment, one: bool) -> bool
    requires { OnMap (record_of first) × (OnMap (record_of second) × (InLimits ends.a × InLimits ends.b)) }
    ensures { result ≡ union_of (record_of first) (record_of second) (segment_form ends) one }
{
    (first.ramp_cells == 0)
        & (second.ramp_cells == 0)
        & is_local(first, second, ends, one)
        & (first.is_strictly_flat(second) | (one & same_dominance(first, second)))
}

pub fn bridge_region(pocket: Region, ends: Segment) -> bool
    requires { PixelRegion (record_of pocket) × (InLimits ends.a × InLimits ends.b) }
    ensures { result ≡ bridge_of (record_of pocket) (segment_form ends) }
{
    (pocket.ramp_cells == 0)
        & (within_radius(pocket, center(ends.a, ends.b)) & pocket.is_strictly_flat(pocket))
}

// ---- proposals

// Where the records of a proposal's regions stand.
pub fn first_place(row: Candidate) -> usize
    requires { 1 ≤ row.first }
    ensures { result ≡ row.first - 1 }
{
    row.first as usize - 1
}

pub fn second_place(row: Candidate) -> usize
    requires { 1 ≤ row.second }
    ensures { result ≡ row.second - 1 }
{
    row.second as usize - 1
}

// Whether the records of its two regions allow the proposal.
pub fn is_allowed(
    boundaries: &[u64],
    marks: &[u16],
    row: Candidate,
    first: Region,
    second: Region,
) -> bool
    requires { (C : Context) × Asked C boundaries.now marks.now row first second }
    ensures { (C : Context) → Asked C boundaries.now marks.now row first second → result ≡ is_allowed C (form row) }
{
    let ends = segment_of(boundaries, row.index as usize);
    if !row.kind.is_union() {
        return bridge_region(first, ends);
    }
    let one = is_anchored(marks, row.first) != is_anchored(marks, row.second);
    union_regions(first, second, ends, one)
}

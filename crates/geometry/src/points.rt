// Points and their distances.
ghost use Rattle.std.specs.Prelude.{◌≡◌};
ghost use Rattle.definitions.specs.Geometry.{point, center, distance, point_segment_distance};
ghost use Rattle.definitions.specs.Junctions.{within_distance};
ghost use Rattle.laws.specs.FloatLaws.DistanceRange.{DistanceInRange, part_before, nearest_point};
ghost use Rattle.span_geometry.specs.Shapes.{InLimits, point_of};
ghost use Rattle.geometry.specs.Forms.{point_form, segment_from};

use super::Point;
use super::numbers::{float, hypot};
use span_geometry::PixelPosition;

pub fn point(p: PixelPosition) -> Point
    requires { InLimits p }
    ensures { point_form result ≡ point (point_of p) }
{
    Point {
        x: float(p.x),
        y: float(p.y),
    }
}

// The middle of the endpoints as written.
pub fn center(a: PixelPosition, b: PixelPosition) -> Point
    requires { InLimits a × InLimits b }
    ensures { point_form result ≡ center (segment_from a b) }
{
    Point {
        x: (float(a.x) + float(b.x)) / 2.0,
        y: (float(a.y) + float(b.y)) / 2.0,
    }
}

pub fn distance(p: Point, q: Point) -> f64
    ensures { DistanceInRange (point_form p) (point_form q) → result ≡ distance (point_form p) (point_form q) }
{
    hypot(p.x - q.x, p.y - q.y)
}

// Whether two points are at most a limit apart (`within_distance` of junctions.rs).
pub fn within_distance(p: Point, q: Point, limit: f64) -> bool
    ensures { DistanceInRange (point_form p) (point_form q) → result ≡ within_distance (point_form p) (point_form q) limit }
{
    distance(p, q) <= limit
}

// The part of the segment from a to b that lies before the point nearest to p.
fn part_before(p: Point, a: Point, b: Point) -> f64
    ensures { result ≡ part_before (point_form p) (point_form a) (point_form b) }
{
    let dx = b.x - a.x;
    let dy = b.y - a.y;
    let n = dx * dx + dy * dy;
    if n == 0.0 {
        0.0
    } else {
        (((p.x - a.x) * dx + (p.y - a.y) * dy) / n).clamp(0.0, 1.0)
    }
}

// The point of the segment from a to b that is nearest to p.
fn nearest_point(p: Point, a: Point, b: Point) -> Point
    ensures { point_form result ≡ nearest_point (point_form p) (point_form a) (point_form b) }
{
    let t = part_before(p, a, b);
    Point {
        x: a.x + t * (b.x - a.x),
        y: a.y + t * (b.y - a.y),
    }
}

// How far p is from the segment from a to b.
pub fn point_segment_distance(p: Point, a: Point, b: Point) -> f64
    ensures { DistanceInRange (point_form p) (nearest_point (point_form p) (point_form a) (point_form b)) →
        result ≡ point_segment_distance (point_form p) (point_form a) (point_form b) }
{
    distance(p, nearest_point(p, a, b))
}

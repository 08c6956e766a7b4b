// A segment: where it stands in a list, its endpoints in order, and the segment against a point and against another segment.
ghost use Rattle.std.specs.Prelude.{◌≡◌, ◌&&◌, ◌+◌, ◌<◌, length};
ghost use Rattle.definitions.specs.Limits.{max_side};
ghost use Rattle.definitions.specs.Grid.{at, segment_at, canonical};
ghost use Rattle.definitions.specs.Spans.{is_zero, middle_of, cell_center, cross, on_segment, segments_intersect};
ghost use Rattle.span_geometry.specs.Shapes.{InLimits, point_of, segment_form};

use super::numbers::{difference, strictly_opposite};
use super::{PixelPosition, Segment};
use definitions::limits::PIXELS_PER_WALK_CELL;

// The endpoints that stand from place k of a list on: a span's four numbers, or the first four of a boundary.
pub fn segment_at(list: &[u64], k: usize) -> Segment
    requires { k + 3 < length list.now }
    ensures { segment_form result ≡ segment_at list.now k }
{
    Segment {
        a: PixelPosition {
            x: list[k],
            y: list[k + 1],
        },
        b: PixelPosition {
            x: list[k + 2],
            y: list[k + 3],
        },
    }
}

// The lesser endpoint first.
pub fn canonical(s: Segment) -> Segment
    ensures { segment_form result ≡ canonical (segment_form s) }
{
    Segment {
        a: s.a.min(s.b),
        b: s.a.max(s.b),
    }
}

// The pixel in the middle of column, or row, k.
pub fn middle_of(k: u64) -> u64
    requires { k < max_side }
    ensures { result ≡ middle_of k }
{
    k * PIXELS_PER_WALK_CELL + PIXELS_PER_WALK_CELL / 2
}

pub fn cell_center(x: u64, y: u64) -> PixelPosition
    requires { (x < max_side) × (y < max_side) }
    ensures { (point_of result ≡ cell_center (at x y)) × InLimits result }
{
    PixelPosition {
        x: middle_of(x),
        y: middle_of(y),
    }
}

// The side of the segment's line on which the point lies: 0 on the line.
pub fn cross(s: Segment, point: PixelPosition) -> i64
    requires { InLimits s.a × InLimits s.b × InLimits point }
    ensures { result ≡ cross (point_of s.a) (point_of s.b) (point_of point) }
{
    let Segment { a, b } = s;
    let delta_x = difference(b.x, a.x);
    let delta_y = difference(b.y, a.y);
    delta_x * difference(point.y, a.y) - delta_y * difference(point.x, a.x)
}

// Whether a point on the segment's line lies between its ends.
pub fn on_segment(s: Segment, point: PixelPosition) -> bool
    ensures { result ≡ on_segment (point_of s.a) (point_of s.b) (point_of point) }
{
    (s.a.x.min(s.b.x) <= point.x)
        & (point.x <= s.a.x.max(s.b.x))
        & (s.a.y.min(s.b.y) <= point.y)
        & (point.y <= s.a.y.max(s.b.y))
}

// Whether a point whose side is given lies on the segment.
pub fn touches(side: i64, s: Segment, point: PixelPosition) -> bool
    ensures { result ≡ (is_zero side && on_segment (point_of s.a) (point_of s.b) (point_of point)) }
{
    (side == 0) & on_segment(s, point)
}

// Whether two segments meet. Most that do cross each other, and need no more than the first test.
pub fn segments_intersect(s: Segment, t: Segment) -> bool
    requires { InLimits s.a × InLimits s.b × InLimits t.a × InLimits t.b }
    ensures { result ≡ segments_intersect (point_of s.a) (point_of s.b) (point_of t.a) (point_of t.b) }
{
    let abc = cross(s, t.a);
    let abd = cross(s, t.b);
    let cda = cross(t, s.a);
    let cdb = cross(t, s.b);
    if strictly_opposite(abc, abd) & strictly_opposite(cda, cdb) {
        return true;
    }
    touches(abc, s, t.a) | touches(abd, s, t.b) | touches(cda, t, s.a) | touches(cdb, t, s.b)
}

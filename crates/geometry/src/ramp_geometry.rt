// How far two boundaries are apart, and when one represents the other. Endpoints are at most 8,192, so that a product of two differences is at most 2^26, and
// i64 serves for the Rust's i128.
ghost use Rattle.std.specs.Prelude.{◌≡◌};
ghost use Rattle.std.specs.Float.{binary64};
ghost use Rattle.std.specs.Float.Ieee.{div};
ghost use Rattle.definitions.specs.Geometry.{point, distance, point_segment_distance};
ghost use Rattle.definitions.specs.RampGeometry.{fabs, intersects, segment_distance, is_nearby_parallel_representative, overlapping_ramp_representative};
ghost use Rattle.laws.specs.FloatLaws.Pixels.{PixelSegment};
ghost use Rattle.span_geometry.specs.Shapes.{InLimits, point_of};
ghost use Rattle.geometry.specs.Forms.{segment_form};
ghost use Rattle.geometry.specs.Representatives.{length_of, dot_of, normal_offset, projection, max_offset, overlap_of};

use super::Segment;
use super::endpoints::canonical;
use super::numbers::{difference, fmax, fmin, hypot};
use super::points::{point, point_segment_distance};
use span_geometry::PixelPosition;
use span_geometry::segments::{cross, touches};

const MAX_REPRESENTATIVE_OFFSET: f64 = 32.0;

const MAX_OVERLAY_NORMAL_OFFSET: f64 = 64.0;

const MIN_OVERLAY_FRACTION: f64 = 0.75;

// cos(PI / 12)
const MIN_PARALLEL_COSINE: f64 = 0.9659258262890683;

// Whether two boundaries meet.
pub fn intersects(left: Segment, right: Segment) -> bool
    requires { PixelSegment (segment_form left) × PixelSegment (segment_form right) }
    ensures { result ≡ intersects (segment_form left) (segment_form right) }
{
    let left_right_start = cross(left, right.a);
    let left_right_end = cross(left, right.b);
    let right_left_start = cross(right, left.a);
    let right_left_end = cross(right, left.b);
    touches(left_right_start, left, right.a)
        | touches(left_right_end, left, right.b)
        | touches(right_left_start, right, left.a)
        | touches(right_left_end, right, left.b)
        | ((left_right_start.signum() != left_right_end.signum())
            & (right_left_start.signum() != right_left_end.signum()))
}

// How far an endpoint is from the other boundary.
fn endpoint_distance(p: PixelPosition, s: Segment) -> f64
    requires { InLimits p × InLimits s.a × InLimits s.b }
    ensures { result ≡ point_segment_distance (point (point_of p)) (point (point_of s.a)) (point (point_of s.b)) }
{
    point_segment_distance(point(p), point(s.a), point(s.b))
}

// The separation of two boundaries: 0 where they meet, and else the least of the endpoints' distances.
pub fn segment_distance(left: Segment, right: Segment) -> f64
    requires { PixelSegment (segment_form left) × PixelSegment (segment_form right) }
    ensures { result ≡ segment_distance (segment_form left) (segment_form right) }
{
    if intersects(left, right) {
        return 0.0;
    }
    let first = endpoint_distance(left.a, right);
    let second = endpoint_distance(left.b, right);
    let third = endpoint_distance(right.a, left);
    let fourth = endpoint_distance(right.b, left);
    fmin(fmin(fmin(first, second), third), fourth)
}

fn offset(p: PixelPosition, q: PixelPosition) -> f64
    requires { InLimits p × InLimits q }
    ensures { result ≡ distance (point (point_of p)) (point (point_of q)) }
{
    super::points::distance(point(p), point(q))
}

fn length(s: Segment) -> f64
    requires { PixelSegment (segment_form s) }
    ensures { result ≡ length_of (segment_form s) }
{
    hypot(difference(s.b.x, s.a.x), difference(s.b.y, s.a.y))
}

// The cosine of the angle between two boundaries, without its sign; `lengths` is the product of their lengths.
fn cosine(s: Segment, t: Segment, lengths: f64) -> f64
    requires { PixelSegment (segment_form s) × PixelSegment (segment_form t) }
    ensures { result ≡ div binary64 (fabs (dot_of (segment_form s) (segment_form t))) lengths }
{
    let dot = difference(s.b.x, s.a.x) * difference(t.b.x, t.a.x)
        + difference(s.b.y, s.a.y) * difference(t.b.y, t.a.y);
    dot.abs() / lengths
}

// Whether canonical endpoints are near each other, one by one, and the boundaries nearly parallel.
pub fn is_nearby_parallel_representative(left: Segment, right: Segment) -> bool
    requires { PixelSegment (segment_form left) × PixelSegment (segment_form right) }
    ensures { result ≡ is_nearby_parallel_representative (segment_form left) (segment_form right) }
{
    let s = canonical(left);
    let t = canonical(right);
    if offset(s.a, t.a) > MAX_REPRESENTATIVE_OFFSET {
        return false;
    }
    if offset(s.b, t.b) > MAX_REPRESENTATIVE_OFFSET {
        return false;
    }
    let lengths = length(s) * length(t);
    (lengths > 0.0) & (cosine(s, t, lengths) >= MIN_PARALLEL_COSINE)
}

// A ramp's boundary, and how long it is.
#[derive(Clone, Copy)]
struct Ramp {
    ends: Segment,
    length: f64,
}

impl Ramp {
    // How far a position is from the ramp's line.
    fn normal_offset(self, p: PixelPosition) -> f64
        requires { PixelSegment (segment_form self.ends) × InLimits p }
        ensures { result ≡ normal_offset (segment_form self.ends) self.length (point_of p) }
    {
        let Segment { a, b } = self.ends;
        let product = difference(p.x, a.x) * difference(b.y, a.y)
            - difference(p.y, a.y) * difference(b.x, a.x);
        product.abs() / self.length
    }

    // How far along the ramp a position lies, from its first endpoint.
    fn project(self, p: PixelPosition) -> f64
        requires { PixelSegment (segment_form self.ends) × InLimits p }
        ensures { result ≡ projection (segment_form self.ends) self.length (point_of p) }
    {
        let Segment { a, b } = self.ends;
        (difference(p.x, a.x) * difference(b.x, a.x) + difference(p.y, a.y) * difference(b.y, a.y))
            / self.length
    }

    fn max_offset(self, candidate: Segment) -> f64
        requires { PixelSegment (segment_form candidate) × PixelSegment (segment_form self.ends) }
        ensures { result ≡ max_offset (segment_form candidate) (segment_form self.ends) self.length }
    {
        fmax(
            self.normal_offset(candidate.a),
            self.normal_offset(candidate.b),
        )
    }

    // The length that the candidate's projection has in common with the ramp.
    fn overlap(self, candidate: Segment) -> f64
        requires { PixelSegment (segment_form candidate) × PixelSegment (segment_form self.ends) }
        ensures { result ≡ overlap_of (segment_form candidate) (segment_form self.ends) self.length }
    {
        let start = self.project(candidate.a);
        let end = self.project(candidate.b);
        let candidate_min = fmin(start, end);
        let candidate_max = fmax(start, end);
        fmax(
            fmin(self.length, candidate_max) - fmax(0.0, candidate_min),
            0.0,
        )
    }
}

// Whether the candidate is nearly parallel to the ramp, near its line, and beside most of the shorter of the two. (The Rust also gives the offset, which
// nothing reads.)
pub fn overlapping_ramp_representative(candidate: Segment, ramp: Segment) -> bool
    requires { PixelSegment (segment_form candidate) × PixelSegment (segment_form ramp) }
    ensures { result ≡ overlapping_ramp_representative (segment_form candidate) (segment_form ramp) }
{
    let s = canonical(candidate);
    let t = canonical(ramp);
    let ramp_length = length(t);
    let candidate_length = length(s);
    if ramp_length == 0.0 || candidate_length == 0.0 {
        return false;
    }
    if cosine(t, s, ramp_length * candidate_length) < MIN_PARALLEL_COSINE {
        return false;
    }
    let along = Ramp {
        ends: t,
        length: ramp_length,
    };
    if along.max_offset(s) > MAX_OVERLAY_NORMAL_OFFSET {
        return false;
    }
    along.overlap(s) >= MIN_OVERLAY_FRACTION * fmin(ramp_length, candidate_length)
}

// The exact square of the distance of two boundaries, as a fraction of whole numbers. Coordinates are at most 8,192, so that every number here is at most 2^54.

#![tactic(auto)]

ghost use Rattle.std.specs.Prelude.{◌≡◌, ◌+◌, ◌*◌, ◌^◌, ◌≤◌, nat_abs};
ghost use Rattle.definitions.specs.Spans.{cross};
ghost use Rattle.definitions.specs.RampGeometry.{intersects};
ghost use Rattle.laws.specs.FloatLaws.Pixels.{PixelSegment};
ghost use Rattle.separations.specs.Distance.{end_square, along, lesser, point_square, exact_square};
ghost use Rattle.span_geometry.specs.Shapes.{max_pixel, InLimits, point_of};
ghost use Rattle.geometry.specs.Forms.{segment_form};
ghost use Rattle.exact_squares.specs.Forms.{Bounded, fraction_of};

use geometry::Segment;
use span_geometry::PixelPosition;
use span_geometry::numbers::difference;
use span_geometry::segments::cross;

// The square of a distance: numerator and denominator.
#[derive(Clone, Copy)]
pub struct Square {
    pub num: u64,
    pub den: u64,
}

fn product(m: u64, n: u64) -> u64
    requires { (m ≤ max_pixel) × (n ≤ max_pixel) }
    ensures { (result ≡ m * n) × (result ≤ 2 ^ 26) }
{
    m * n
}

// The square of the distance of two positions.
fn end_square(p: PixelPosition, q: PixelPosition) -> u64
    requires { InLimits p × InLimits q }
    ensures { (result ≡ end_square (point_of p) (point_of q)) × (result ≤ 2 ^ 27) }
{
    let x = p.x.abs_diff(q.x);
    let y = p.y.abs_diff(q.y);
    product(x, x) + product(y, y)
}

// How far along the segment the foot of the perpendicular from p lies, in parts of the squared length.
fn along(p: PixelPosition, s: Segment) -> u64
    requires { InLimits p × InLimits s.a × InLimits s.b }
    ensures { result ≡ along (point_of p) (segment_form s) }
{
    let x = difference(p.x, s.a.x) * difference(s.b.x, s.a.x);
    let y = difference(p.y, s.a.y) * difference(s.b.y, s.a.y);
    (x + y).max(0) as u64
}

// The cross product, without its sign.
fn height(p: PixelPosition, s: Segment) -> u64
    requires { InLimits p × InLimits s.a × InLimits s.b }
    ensures { (result ≡ nat_abs (cross (point_of s.a) (point_of s.b) (point_of p))) × (result ≤ 2 ^ 27) }
{
    cross(s, p).unsigned_abs()
}

// The square of the distance from p to the segment.
fn point_square(p: PixelPosition, s: Segment) -> Square
    requires { InLimits p × InLimits s.a × InLimits s.b }
    ensures { (fraction_of result ≡ point_square (point_of p) (segment_form s)) × Bounded result }
{
    let k = along(p, s);
    if k == 0 {
        return Square {
            num: end_square(p, s.a),
            den: 1,
        };
    }
    let n = end_square(s.b, s.a);
    if n <= k {
        return Square {
            num: end_square(p, s.b),
            den: 1,
        };
    }
    let c = height(p, s);
    Square { num: c * c, den: n }
}

// The lesser of two, the first where they are equal.
fn lesser(f: Square, g: Square) -> Square
    requires { Bounded f × Bounded g }
    ensures { (fraction_of result ≡ lesser (fraction_of f) (fraction_of g)) × Bounded result }
{
    if u128::from(f.num) * u128::from(g.den) <= u128::from(g.num) * u128::from(f.den) {
        f
    } else {
        g
    }
}

// The square of the distance of two boundaries; `meet` says whether they share a point.
pub fn exact_square(left: Segment, right: Segment, meet: bool) -> Square
    requires { PixelSegment (segment_form left) × PixelSegment (segment_form right) × (meet ≡ intersects (segment_form left) (segment_form right)) }
    ensures { (fraction_of result ≡ exact_square (segment_form left) (segment_form right)) × Bounded result }
{
    if meet {
        return Square { num: 0, den: 1 };
    }
    let first = point_square(left.a, right);
    let second = point_square(left.b, right);
    let third = point_square(right.a, left);
    let fourth = point_square(right.b, left);
    lesser(lesser(lesser(first, second), third), fourth)
}

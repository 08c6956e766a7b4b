// The whole-number geometry of spans, from areas.rs: a span's endpoints in order, the steps that it cuts, and the cells near it.
//
// Coordinates are at most 8,192 pixels and cells below 1,024, so that every number here is at most 2^27 in size and nothing wraps.
// Tests are joined by & and |, which evaluate both sides, so that an answer is one expression; only `cuts` and `segments_intersect` stop early.

#![tactic(auto)]

pub mod numbers;
pub mod segments;
pub mod strips;

ghost use Rattle.std.specs.Prelude.{◌≡◌, ◌<◌};
ghost use Rattle.definitions.specs.Limits.{max_side};
ghost use Rattle.definitions.specs.Grid.{at};
ghost use Rattle.definitions.specs.Spans.{cuts};
ghost use Rattle.span_geometry.specs.Shapes.{InLimits, Sound, Made, segment_form, segment_of};

use numbers::not_negative;
use segments::{canonical, cell_center, cross, segments_intersect};

// A point in pixels. Positions compare by x, then y.
#[derive(Clone, Copy, PartialEq, Eq, PartialOrd, Ord)]
pub struct PixelPosition {
    pub x: u64,
    pub y: u64,
}

// The endpoints of a boundary or a span. Segments compare by the first, then the second.
#[derive(Clone, Copy, PartialEq, Eq, PartialOrd, Ord)]
pub struct Segment {
    pub a: PixelPosition,
    pub b: PixelPosition,
}

// A span: its endpoints, the lesser first, and the least and greatest of their coordinates.
#[derive(Clone, Copy)]
pub struct SpanGeometry {
    pub ends: Segment,
    pub min_x: u64,
    pub max_x: u64,
    pub min_y: u64,
    pub max_y: u64,
}

impl SpanGeometry {
    pub fn new(ends: Segment) -> Self
        requires { InLimits ends.a × InLimits ends.b }
        ensures { Made (segment_form ends) result }
    {
        let ends = canonical(ends);
        SpanGeometry {
            ends,
            min_x: ends.a.x,
            max_x: ends.b.x,
            min_y: ends.a.y.min(ends.b.y),
            max_y: ends.a.y.max(ends.b.y),
        }
    }

    // Whether the span cuts the step between two cells. Most steps near a span lie on one side of it, and need no more than that test.
    pub fn cuts(self, from_x: u64, from_y: u64, to_x: u64, to_y: u64) -> bool
        requires { Sound self × (from_x < max_side) × (from_y < max_side) × (to_x < max_side) × (to_y < max_side) }
        ensures { result ≡ cuts (segment_of self) (at from_x from_y) (at to_x to_y) }
    {
        let from = cell_center(from_x, from_y);
        let to = cell_center(to_x, to_y);
        let from_side = cross(self.ends, from);
        let to_side = cross(self.ends, to);
        if not_negative(from_side) == not_negative(to_side) {
            return false;
        }
        segments_intersect(self.ends, Segment { a: from, b: to })
    }
}

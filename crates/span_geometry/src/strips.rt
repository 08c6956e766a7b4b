// The cells near a span, in the order of candidate_positions: columns, or rows, along the span's major axis, and in each the cells near the span there.
ghost use Rattle.std.specs.Prelude.{◌≡◌, true, ◌≤◌, ◌<◌};
ghost use Rattle.definitions.specs.Limits.{max_side};
ghost use Rattle.definitions.specs.Refusals.{endpoints_differ};
ghost use Rattle.definitions.specs.Spans.{candidate_axis_range, candidate_minor_range};
ghost use Rattle.span_geometry.specs.Shapes.{max_pixel, Sound, segment_of};
ghost use Rattle.span_geometry.specs.Strips.{Walks, Usable, strip_of, line_of};

use super::numbers::{difference, div_euclid};
use super::segments::middle_of;
use super::{Segment, SpanGeometry};
use definitions::limits::PIXELS_PER_WALK_CELL;

const CANDIDATE_MARGIN_PIXELS: u64 = 16;

const CANDIDATE_MINOR_RADIUS_CELLS: u64 = 3;

// first, .., last; nothing where last is below first.
// Kept: the library's `RangeInclusive` has a flag that each contract must deny, and `Range` ends one behind: the definition's lists, and with them each law
// here and in cut_steps, say the last.
#[derive(Clone, Copy)]
pub struct CandidateRange {
    pub first: u64,
    pub last: u64,
}

pub fn candidate_axis_range(minimum: u64, maximum: u64, limit: u64) -> CandidateRange
    requires { (maximum ≤ max_pixel) × (0 < limit) }
    ensures { Walks result (candidate_axis_range minimum maximum limit) limit }
{
    CandidateRange {
        first: minimum.saturating_sub(CANDIDATE_MARGIN_PIXELS) / PIXELS_PER_WALK_CELL,
        last: ((maximum + CANDIDATE_MARGIN_PIXELS) / PIXELS_PER_WALK_CELL).min(limit - 1),
    }
}

pub fn candidate_minor_range(reference: u64, limit: u64) -> CandidateRange
    requires { 0 < limit }
    ensures { Walks result (candidate_minor_range reference limit) limit }
{
    let center = reference / PIXELS_PER_WALK_CELL;
    CandidateRange {
        first: center.saturating_sub(CANDIDATE_MINOR_RADIUS_CELLS),
        last: (center + CANDIDATE_MINOR_RADIUS_CELLS).min(limit - 1),
    }
}

// A span along its major axis: from (major0, minor0) to (major1, minor1). The major coordinate is x where columns is true, else y.
#[derive(Clone, Copy)]
pub struct Strip {
    pub columns: bool,
    pub major0: u64,
    pub minor0: u64,
    pub major1: u64,
    pub minor1: u64,
}

impl Strip {
    pub fn new(g: SpanGeometry) -> Self
        requires { Sound g × (endpoints_differ (segment_of g) ≡ true) }
        ensures { (result ≡ strip_of (segment_of g)) × Usable result }
    {
        let Segment { a, b } = g.ends;
        if a.y.abs_diff(b.y) <= a.x.abs_diff(b.x) {
            Strip {
                columns: true,
                major0: g.min_x,
                minor0: a.y,
                major1: g.max_x,
                minor1: b.y,
            }
        } else if a.y <= b.y {
            Strip {
                columns: false,
                major0: g.min_y,
                minor0: a.x,
                major1: g.max_y,
                minor1: b.x,
            }
        } else {
            Strip {
                columns: false,
                major0: g.min_y,
                minor0: b.x,
                major1: g.max_y,
                minor1: a.x,
            }
        }
    }

    // The columns, or rows, near the span, of as many as limit says.
    pub fn axis_range(self, limit: u64) -> CandidateRange
        requires { Usable self × (0 < limit) }
        ensures { Walks result (candidate_axis_range self.major0 self.major1 limit) limit }
    {
        candidate_axis_range(self.major0, self.major1, limit)
    }

    // The minor coordinate of the span at the middle of column, or row, k, or at the nearer end of the span.
    pub fn line_at(self, k: u64) -> u64
        requires { Usable self × (k < max_side) }
        ensures { result ≡ line_of self k }
    {
        let run = self.major1 - self.major0;
        let reached = self.major0.max(middle_of(k).min(self.major1));
        let start = self.minor0 * run;
        let line = start as i64
            + difference(self.minor1, self.minor0) * difference(reached, self.major0);
        div_euclid(line, run) as u64
    }

    // The cells near the span in column, or row, k, of as many as limit says.
    pub fn minor_range(self, k: u64, limit: u64) -> CandidateRange
        requires { Usable self × (k < max_side) × (0 < limit) }
        ensures { Walks result (candidate_minor_range (line_of self k) limit) limit }
    {
        candidate_minor_range(self.line_at(k), limit)
    }
}

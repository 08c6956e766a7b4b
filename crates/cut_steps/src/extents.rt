// Of the columns, rows and cells near a span, those that may have a cut step. A step leads to the middle of a cell beside its own, 8 pixels away, and is not
// cut where both its ends lie before the span along an axis, or both behind it. Steps to cells of larger number lead to no row before their own, so that
// rows are behind a span 8 pixels earlier than columns.
ghost use Rattle.std.specs.Prelude.{◌≤◌, ◌<◌};
ghost use Rattle.definitions.specs.Limits.{max_side};
ghost use Rattle.span_geometry.specs.Shapes.{max_pixel, Sound, segment_of};
ghost use Rattle.span_geometry.specs.Strips.{Usable};
ghost use Rattle.cut_steps.specs.Extents.{Narrows, NearAxis};
ghost use Rattle.cut_steps.specs.Columns.{Near};

use definitions::limits::PIXELS_PER_WALK_CELL;
use span_geometry::SpanGeometry;
use span_geometry::strips::{CandidateRange, Strip};

// The middle of the place after m is at 8 m + 12, and that of the one before it at 8 m - 4. So the first of these is at pixel p or later where m is
// (p - 5) / 8 or more, and the second is at p or earlier where m is (p + 4) / 8 or less.
const REACHES_AFTER: u64 = 5;

const REACHES_BEFORE: u64 = 4;

// The places of a range from which a step can reach the pixels from `least` to `greatest`.
fn narrowed(range: CandidateRange, least: u64, greatest: u64) -> CandidateRange
    requires { greatest ≤ max_pixel }
    ensures { Narrows least greatest range result }
{
    let after = least.saturating_sub(REACHES_AFTER) / PIXELS_PER_WALK_CELL;
    let before = (greatest + REACHES_BEFORE) / PIXELS_PER_WALK_CELL;
    CandidateRange {
        first: range.first.max(after),
        last: range.last.min(before),
    }
}

// The columns, or rows, near the span that may have a cut step, of as many as limit says.
pub fn near_axis(strip: Strip, limit: u64) -> CandidateRange
    requires { Usable strip × (0 < limit) }
    ensures { NearAxis strip limit result }
{
    let range = strip.axis_range(limit);
    if strip.columns {
        return narrowed(range, strip.major0, strip.major1);
    }
    narrowed(
        range,
        strip.major0,
        strip.major1.saturating_sub(PIXELS_PER_WALK_CELL),
    )
}

// The candidates in column, or row, k that may have a cut step, of as many as limit says.
pub fn near_range(g: SpanGeometry, strip: Strip, k: u64, limit: u64) -> CandidateRange
    requires { Sound g × Usable strip × (k < max_side) × (0 < limit) }
    ensures { Near (segment_of g) strip k limit result }
{
    let range = strip.minor_range(k, limit);
    if strip.columns {
        return narrowed(range, g.min_y, g.max_y.saturating_sub(PIXELS_PER_WALK_CELL));
    }
    narrowed(range, g.min_x, g.max_x)
}

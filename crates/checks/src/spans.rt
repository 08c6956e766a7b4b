// The checks of spans: numbers 5 and 6.
ghost use Rattle.std.specs.Prelude.{◌≡◌, ◌≤◌};
ghost use Rattle.definitions.specs.Limits.{max_side};
ghost use Rattle.definitions.specs.Grid.{segment_at};
ghost use Rattle.definitions.specs.Refusals.{both_on_map, endpoints_differ, spans_refusal};
ghost use Rattle.refusals.specs.Refusals.{refusal_in};
ghost use Rattle.checks.specs.Contract.{segment_refusal};

use definitions::limits::{NUMBERS_PER_SPAN, PIXELS_PER_WALK_CELL};
use refusals::{Cause, Refusal};

// 5: "span endpoint above 8 × width or 8 × height", of a span's four numbers or a boundary's first four.
pub(crate) fn both_on_map(width: u64, height: u64, line: &[u64; NUMBERS_PER_SPAN]) -> bool
    requires { (width ≤ max_side) × (height ≤ max_side) }
    ensures { result ≡ both_on_map width height (segment_at line.now 0) }
{
    let [x0, y0, x1, y1] = *line;
    let right = PIXELS_PER_WALK_CELL * width;
    let bottom = PIXELS_PER_WALK_CELL * height;
    ((x0 <= right) & (y0 <= bottom)) & ((x1 <= right) & (y1 <= bottom))
}

// 6: "span endpoints equal"
fn endpoints_differ(span: &[u64; NUMBERS_PER_SPAN]) -> bool
    ensures { result ≡ endpoints_differ (segment_at span.now 0) }
{
    let [x0, y0, x1, y1] = *span;
    (x0, y0) != (x1, y1)
}

// Both, of the span at this place: "Numbers 5 and 6 are tested span by span, 5 first."
fn check_span(
    width: u64,
    height: u64,
    span: &[u64; NUMBERS_PER_SPAN],
    place: usize,
) -> Result<(), Refusal>
    requires { (width ≤ max_side) × (height ≤ max_side) }
    ensures { refusal_in result ≡ segment_refusal width height (segment_at span.now 0) place }
{
    if !both_on_map(width, height, span) {
        return Err(Refusal {
            cause: Cause::SpanOutside,
            place,
        });
    }
    if !endpoints_differ(span) {
        return Err(Refusal {
            cause: Cause::SpanOfNoLength,
            place,
        });
    }
    Ok(())
}

pub fn spans_fault(width: u64, height: u64, spans: &[u64]) -> Result<(), Refusal>
    requires { (width ≤ max_side) × (height ≤ max_side) }
    ensures { refusal_in result ≡ spans_refusal width height spans.now }
{
    let (spans, _) = spans.as_chunks::<NUMBERS_PER_SPAN>();
    for (i, span) in spans.iter().enumerate() {
        check_span(width, height, span, i)?;
    }
    Ok(())
}

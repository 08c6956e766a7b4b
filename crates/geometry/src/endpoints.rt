// Endpoints in their order. `canonical` serves for `canonical_boundary` too: what a boundary has besides endpoints stays in the lent list.
ghost use Rattle.std.specs.Prelude.{◌≡◌};
ghost use Rattle.definitions.specs.Context.{endpoints_key};
ghost use Rattle.definitions.specs.Sort.{list_lt};
ghost use Rattle.geometry.specs.Forms.{segment_form};

use super::Segment;
pub use span_geometry::segments::canonical;

// Whether `compare_boundaries` is Less: canonical endpoints compare by the first, then the second.
pub fn precedes(s: Segment, t: Segment) -> bool
    ensures { result ≡ list_lt (endpoints_key (segment_form s)) (endpoints_key (segment_form t)) }
{
    let left = canonical(s);
    let right = canonical(t);
    left < right
}

// The check of spans and boundaries against each other: number 16.
ghost use Rattle.std.specs.Prelude.{◌≡◌, ◌&&◌, ◌+◌, ◌<◌, length};
ghost use Rattle.definitions.specs.Grid.{segment_at};
ghost use Rattle.rest_definitions.specs.RestVerdict.{same_point_lem, lists_fault};
ghost use Rattle.rest_lists.specs.Early.{agrees_at};

use definitions::limits::{NUMBERS_PER_BOUNDARY, NUMBERS_PER_SPAN};

// The four numbers from k on are those from j on.
fn same_ends(spans: &[u64], k: usize, boundaries: &[u64], j: usize) -> bool
    requires { (k + 3 < length spans.now) × (j + 3 < length boundaries.now) }
    ensures { result ≡ (same_point_lem (segment_at spans.now k).a (segment_at boundaries.now j).a
        && same_point_lem (segment_at spans.now k).b (segment_at boundaries.now j).b) }
{
    spans[k..k + NUMBERS_PER_SPAN] == boundaries[j..j + NUMBERS_PER_SPAN]
}

// Both lists have an entry i, with the same endpoints as written.
fn agrees(spans: &[u64], boundaries: &[u64], i: usize) -> bool
    ensures { result ≡ agrees_at spans.now boundaries.now i }
{
    i < spans.len() / NUMBERS_PER_SPAN
        && i < boundaries.len() / NUMBERS_PER_BOUNDARY
        && same_ends(
            spans,
            NUMBERS_PER_SPAN * i,
            boundaries,
            NUMBERS_PER_BOUNDARY * i,
        )
}

// Kept: `desk_fault` of `desk_checks` asks another relation of the same entries, as `agrees` and `lies_on` do. One search for both would take the relation as a
// closure, with a contract on what it answers. Both lists in chunks, zipped, would end with the shorter, whose end would then be a case of its own.
pub fn lists_fault(spans: &[u64], boundaries: &[u64]) -> Option<usize>
    ensures { result ≡ lists_fault spans.now boundaries.now }
{
    let count = (spans.len() / NUMBERS_PER_SPAN).max(boundaries.len() / NUMBERS_PER_BOUNDARY);
    (0..count).find(|&i| !agrees(spans, boundaries, i))
}

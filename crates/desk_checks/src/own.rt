// A desk's own checks, in their order: 3 of boundaries and anchors, 4, 7, 20, 8, 10 of the output.
ghost use Rattle.std.specs.Prelude.{◌≡◌, ◌&&◌, ◌+◌, ◌≤◌, ◌<◌, length, IfOk};
ghost use Rattle.definitions.specs.Limits.{max_side};
ghost use Rattle.definitions.specs.Grid.{segment_at};
ghost use Rattle.checks.specs.Passes.{pass_number};
ghost use Rattle.refusals.specs.Refusals.{refusal_in};
ghost use Rattle.desks.specs.Desks.{is_span, desk_fault, own_refusal};
ghost use Rattle.desk_checks.specs.Own.{lies_on, places_refusal};

use checks::anchors::anchors_fault;
use checks::boundaries::boundaries_fault;
use checks::passes::Pass;
use checks::sizes::{are_whole, output_has_room};
use definitions::limits::{NUMBERS_PER_BOUNDARY, NUMBERS_PER_SPAN};
use refusals::{Cause, Refusal, ensure, no_fault};

// Whether the four numbers from b on are the span of the four from s on, up to the order of its endpoints.
fn is_span(boundaries: &[u64], b: usize, spans: &[u64], s: usize) -> bool
    requires { (b + 3 < length boundaries.now) × (s + 3 < length spans.now) }
    ensures { result ≡ is_span (segment_at boundaries.now b) (segment_at spans.now s) }
{
    let first = (boundaries[b], boundaries[b + 1]);
    let second = (boundaries[b + 2], boundaries[b + 3]);
    let from = (spans[s], spans[s + 1]);
    let to = (spans[s + 2], spans[s + 3]);
    ((first, second) == (from, to)) | ((first, second) == (to, from))
}

// Whether both the boundary and the span of number i are there, and lie on each other.
fn lies_on(spans: &[u64], boundaries: &[u64], i: usize) -> bool
    ensures { result ≡ lies_on spans.now boundaries.now i }
{
    i < spans.len() / NUMBERS_PER_SPAN
        && i < boundaries.len() / NUMBERS_PER_BOUNDARY
        && is_span(
            boundaries,
            NUMBERS_PER_BOUNDARY * i,
            spans,
            NUMBERS_PER_SPAN * i,
        )
}

// 20: a boundary of the desk is not its shared span up to the order of endpoints, or one of the two is missing.
// Kept: `lists_fault` of `rest_lists` asks another relation of the same entries, as `agrees` and `lies_on` do. One search for both would take the relation as a
// closure, with a contract on what it answers. Both lists in chunks, zipped, would end with the shorter, whose end would then be a case of its own.
pub fn desk_fault(spans: &[u64], boundaries: &[u64]) -> Option<usize>
    ensures { result ≡ desk_fault spans.now boundaries.now }
{
    let count = (spans.len() / NUMBERS_PER_SPAN).max(boundaries.len() / NUMBERS_PER_BOUNDARY);
    (0..count).find(|&i| !lies_on(spans, boundaries, i))
}

// What a desk asks over the shared map: its pass, its boundaries and its anchors.
#[derive(Clone, Copy)]
pub struct Desk<'a> {
    pub pass: u64,
    pub boundaries: &'a [u64],
    pub anchors: &'a [u64],
}

// Checks 7, 20, 8 and 10.
fn check_places(
    width: u64,
    height: u64,
    spans: &[u64],
    desk: Desk,
    output: usize,
) -> Result<(), Refusal>
    requires { (width ≤ max_side) × (height ≤ max_side) }
    ensures { refusal_in result
        ≡ places_refusal width height spans.now desk.entry.boundaries.now desk.entry.anchors.now output }
{
    let boundaries = desk.boundaries;
    no_fault(boundaries_fault(width, height, boundaries), Cause::Boundary)?;
    no_fault(desk_fault(spans, boundaries), Cause::Desk)?;
    no_fault(
        anchors_fault(width, height, desk.anchors),
        Cause::AnchorOutside,
    )?;
    let room = output_has_room(boundaries.len() / NUMBERS_PER_BOUNDARY, output);
    ensure(room, Cause::Room)
}

// All of them, and the desk's pass. Of the output only the length matters.
pub fn check_desk(
    width: u64,
    height: u64,
    spans: &[u64],
    desk: Desk,
    output: usize,
) -> Result<Pass, Refusal>
    requires { (width ≤ max_side) × (height ≤ max_side) }
    ensures named { IfOk result (λ pass. pass_number pass ≡ desk.entry.pass) }
    ensures refused { refusal_in result
        ≡ own_refusal width height spans.now desk.entry.pass desk.entry.boundaries.now desk.entry.anchors.now output }
{
    let whole = are_whole(desk.boundaries.len(), desk.anchors.len());
    ensure(whole, Cause::Entries)?;
    let pass = Pass::try_from(desk.pass)?;
    check_places(width, height, spans, desk, output)?;
    Ok(pass)
}

// The checks of sizes and lengths: numbers 1 to 3 and 10. Number 4 is `passes`.
ghost use Rattle.std.specs.Prelude.{◌≡◌, ◌&&◌, ◌≤◌, ◌<◌, ◌*◌, ◌/◌, ◌%◌, eqb, leb, length};
ghost use Rattle.definitions.specs.Limits.{max_side, is_side, max_entries, numbers_per_boundary, numbers_per_anchor};
ghost use Rattle.definitions.specs.Refusals.{partition_room, output_room};

use definitions::limits::{
    MAX_ENTRIES, MAX_SIDE, NUMBERS_PER_ANCHOR, NUMBERS_PER_BOUNDARY, NUMBERS_PER_ROW,
    TALLIES_PER_SPAN,
};

// 1: "a side is 0 or over 1,024"
pub fn sides_fit(width: u64, height: u64) -> bool
    ensures { result ≡ (is_side width && is_side height) }
{
    ((1 <= width) & (width <= MAX_SIDE)) & ((1 <= height) & (height <= MAX_SIDE))
}

// 2: "cells are not width × height"
pub fn cells_fit(width: u64, height: u64, cells: &[u8]) -> bool
    requires { (width ≤ max_side) × (height ≤ max_side) }
    ensures { result ≡ eqb (length cells.now) (width * height) }
{
    cells.len() as u64 == width * height
}

// 3: "over 256 spans, boundaries or anchors, or a last entry unfinished", of a list of this many numbers
pub fn is_whole(size: usize, numbers: usize) -> bool
    requires { 0 < size }
    ensures { result ≡ (eqb (numbers % size) 0 && leb (numbers / size) max_entries) }
{
    (numbers % size == 0) & (numbers / size <= MAX_ENTRIES)
}

// 3, of boundaries and anchors in lists of these lengths.
pub fn are_whole(boundaries: usize, anchors: usize) -> bool
    ensures { result
        ≡ (eqb (boundaries % numbers_per_boundary) 0 && leb (boundaries / numbers_per_boundary) max_entries
        && (eqb (anchors % numbers_per_anchor) 0 && leb (anchors / numbers_per_anchor) max_entries)) }
{
    is_whole(NUMBERS_PER_BOUNDARY, boundaries) & is_whole(NUMBERS_PER_ANCHOR, anchors)
}

// 10: "labels, masks, queue, tallies or output too short", of lists of these lengths. A quotient on the right, as a product on the left might not fit.
pub fn partition_has_room(
    cells: usize,
    spans: usize,
    labels: usize,
    masks: usize,
    queue: usize,
    tallies: usize,
) -> bool
    ensures { result ≡ partition_room cells spans labels masks queue tallies }
{
    (cells <= labels) & (cells <= masks) & (cells <= queue) & (spans <= tallies / TALLIES_PER_SPAN)
}

pub fn output_has_room(boundaries: usize, output: usize) -> bool
    ensures { result ≡ output_room boundaries output }
{
    boundaries <= output / NUMBERS_PER_ROW
}

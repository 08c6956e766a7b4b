// The anchored regions (`anchored` of context.rs): an anchor makes its cell's label anchored.
ghost use Rattle.std.specs.Prelude.{◌≡◌, ◌+◌, ◌*◌, ◌/◌, ◌≤◌, ◌<◌, length, get_or};
ghost use Rattle.definitions.specs.Limits.{max_side, numbers_per_anchor};
ghost use Rattle.context.specs.Anchors.{anchor_cell, anchor_cells, mark_label, mark_cells, AnchorsFit};

use definitions::limits::NUMBERS_PER_ANCHOR;

// The number of an anchor's cell.
fn anchor_cell(width: usize, anchor: [u64; NUMBERS_PER_ANCHOR]) -> usize
    requires { (width ≤ max_side) × (get_or anchor 0 0 < max_side) × (get_or anchor 1 0 < max_side) }
    ensures { result ≡ get_or anchor 1 0 * width + get_or anchor 0 0 }
{
    let [x, y] = anchor;
    y as usize * width + x as usize
}

// Marks a region; label 0, of a cell that is not walkable, is no region's.
fn mark_label(marks: &mut [u16], label: usize)
    requires { label ≤ length marks.old }
    ensures { marks.new ≡ mark_label marks.old label }
{
    if label != 0 {
        marks[label - 1] = 1;
    }
}

pub fn mark_anchored(width: usize, labels: &[u32], anchors: &[u64], marks: &mut [u16])
    requires { AnchorsFit width labels.now anchors.now (length marks.old) }
    ensures { marks.new ≡ mark_cells labels.now marks.old
        (anchor_cells width anchors.now (length anchors.now / numbers_per_anchor)) }
{
    for anchor in anchors.as_chunks::<NUMBERS_PER_ANCHOR>().0 {
        let cell = anchor_cell(width, *anchor);
        mark_label(&mut *marks, labels[cell] as usize);
    }
}

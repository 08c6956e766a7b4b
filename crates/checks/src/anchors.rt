// The check of anchors: number 8.
ghost use Rattle.std.specs.Prelude.{◌≡◌, ◌&&◌, ltb, get_or};
ghost use Rattle.definitions.specs.Refusals.{anchors_fault};

use definitions::limits::NUMBERS_PER_ANCHOR;

// "anchor outside the grid"
fn anchor_fits(width: u64, height: u64, anchor: &[u64; NUMBERS_PER_ANCHOR]) -> bool
    ensures { result ≡ (ltb (get_or anchor.now 0 0) width && ltb (get_or anchor.now 1 0) height) }
{
    let [x, y] = *anchor;
    (x < width) & (y < height)
}

pub fn anchors_fault(width: u64, height: u64, anchors: &[u64]) -> Option<usize>
    ensures { result ≡ anchors_fault width height anchors.now }
{
    let (anchors, _) = anchors.as_chunks::<NUMBERS_PER_ANCHOR>();
    anchors
        .iter()
        .position(|anchor| !anchor_fits(width, height, anchor))
}

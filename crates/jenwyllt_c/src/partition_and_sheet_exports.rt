// What `jenwyllt` exports to C.

ghost use Rattle.areas.specs.Contract.{given};
ghost use Rattle.jenwyllt.specs.Contract.{Partitions, Reads};
ghost use Rattle.std.specs.Prelude.{length, ◌≡◌};
ghost use Rattle.definitions.specs.Sheet.{read_verdict};
ghost use Rattle.definitions.specs.Hypotenuse.{hypot_number, hypot_value};

use areas::lists::PartitionLists;
use jenwyllt::{JenwylltSheet, Outcome};
use refusals::answers::Answer;

#[unsafe(no_mangle)]
pub extern "C" fn jenwyllt_partition(
    width: u64,
    height: u64,
    cells: &[u8],
    spans: &[u64],
    labels: &mut [u32],
    masks: &mut [u16],
    queue: &mut [u32],
    tallies: &mut [u32],
    pairs: &mut [u32],
) -> Answer
    ensures { Partitions (given width height cells.now spans.now labels.old masks.old
        queue.old tallies.old pairs.old) result
        labels.new masks.new queue.new tallies.new pairs.new }
{
    let mut lists = PartitionLists {
        labels,
        masks,
        queue,
        tallies,
        pairs,
    };
    jenwyllt::jenwyllt_partition(width, height, cells, spans, &mut lists)
}

#[unsafe(no_mangle)]
pub extern "C" fn jenwyllt_read_sheet(
    bytes: &[u8],
    cells: &mut [u8],
    spans: &mut [u64],
    boundaries: &mut [u64],
    anchors: &mut [u64],
) -> JenwylltSheet
    ensures { Reads (read_verdict bytes.now (length cells.old) (length spans.old)
        (length boundaries.old) (length anchors.old)) cells.old spans.old boundaries.old
        anchors.old result cells.new spans.new boundaries.new anchors.new }
{
    jenwyllt::jenwyllt_read_sheet(bytes, cells, spans, boundaries, anchors)
}

#[unsafe(no_mangle)]
pub extern "C" fn jenwyllt_hypotenuse(x: f64, y: f64) -> Outcome
    ensures { (result.number ≡ hypot_number x y) × (result.value ≡ hypot_value x y) }
{
    jenwyllt::jenwyllt_hypotenuse(x, y)
}

// The value alone, for a caller whose arguments are in range.
#[unsafe(no_mangle)]
pub extern "C" fn jenwyllt_hypot(x: f64, y: f64) -> f64
    ensures { result ≡ hypot_value x y }
{
    jenwyllt::jenwyllt_hypot(x, y)
}

// The partition, the reader of sheets and the hypotenuse, for programs in C, Rust and other languages. include/jenwyllt.h declares what is here.

#![tactic(auto)]

ghost use Rattle.std.specs.Prelude.{◌≡◌, length};
ghost use Rattle.definitions.specs.Hypotenuse.{hypot_number, hypot_value};
ghost use Rattle.definitions.specs.Sheet.{read_verdict};
ghost use Rattle.areas.specs.Contract.{given};
ghost use Rattle.areas.specs.Lists.{SameLists};
ghost use Rattle.hypotenuse.specs.Contract.{number_of, value_of};
ghost use Rattle.sheet.specs.Contract.{by_number};
ghost use Rattle.jenwyllt.specs.Contract.{Partitions, sheet_in, Reads};

use areas::lists::PartitionLists;
use areas::partition;
use hypotenuse::hypotenuse;
use refusals::answers::Answer;
use refusals::{Cause, Refusal};
use sheet::{Header, read_sheet};

pub fn jenwyllt_partition(
    width: u64,
    height: u64,
    cells: &[u8],
    spans: &[u64],
    lists: &mut PartitionLists,
) -> Answer
    ensures ran { Partitions (given width height cells.now spans.now lists.old.labels.now lists.old.masks.now
        lists.old.queue.now lists.old.tallies.now lists.old.pairs.now) result
        lists.new.labels.now lists.new.masks.now lists.new.queue.now lists.new.tallies.now lists.new.pairs.now }
    ensures same { SameLists lists.old lists.new }
{
    Answer::from(partition(width, height, cells, spans, lists))
}

// Number 0, place 0 and what the sheet opens with; or a refusal's number and place, and 0 for the rest. The last three are counts of entries.
#[repr(C)]
#[derive(Clone, Copy)]
pub struct JenwylltSheet {
    pub number: u64,
    pub place: u64,
    pub pass: u64,
    pub width: u64,
    pub height: u64,
    pub spans: u64,
    pub boundaries: u64,
    pub anchors: u64,
}

impl From<Result<Header, Refusal>> for JenwylltSheet {
    ghost from_gives = { λ given answer. answer ≡ sheet_in (by_number given) };

    fn from(given: Result<Header, Refusal>) -> JenwylltSheet {
        match given {
            Ok(header) => JenwylltSheet {
                number: 0,
                place: 0,
                pass: header.pass,
                width: header.width as u64,
                height: header.height as u64,
                spans: header.spans as u64,
                boundaries: header.boundaries as u64,
                anchors: header.anchors as u64,
            },
            Err(refusal) => JenwylltSheet {
                number: refusal.cause.number(),
                place: refusal.place as u64,
                pass: 0,
                width: 0,
                height: 0,
                spans: 0,
                boundaries: 0,
                anchors: 0,
            },
        }
    }
}

pub fn jenwyllt_read_sheet(
    bytes: &[u8],
    cells: &mut [u8],
    spans: &mut [u64],
    boundaries: &mut [u64],
    anchors: &mut [u64],
) -> JenwylltSheet
    ensures { Reads (read_verdict bytes.now (length cells.old) (length spans.old)
        (length boundaries.old) (length anchors.old)) cells.old spans.old boundaries.old
        anchors.old result cells.new spans.new boundaries.new anchors.new }
{
    JenwylltSheet::from(read_sheet(bytes, cells, spans, boundaries, anchors))
}

// Number 0 and the root, or number 13, the refusal, and 0.
#[repr(C)]
#[derive(Clone, Copy)]
pub struct Outcome {
    pub number: u64,
    pub value: f64,
}

impl From<Option<f64>> for Outcome {
    ghost from_gives = { λ root outcome. (outcome.number ≡ number_of root) × (outcome.value ≡ value_of root) };

    fn from(root: Option<f64>) -> Outcome {
        match root {
            Some(value) => Outcome { number: 0, value },
            None => Outcome {
                number: Cause::Range.number(),
                value: 0.0,
            },
        }
    }
}

pub fn jenwyllt_hypotenuse(x: f64, y: f64) -> Outcome
    ensures { (result.number ≡ hypot_number x y) × (result.value ≡ hypot_value x y) }
{
    Outcome::from(hypotenuse(x, y))
}

// The value alone, for a caller whose arguments are in range.
pub fn jenwyllt_hypot(x: f64, y: f64) -> f64
    ensures { result ≡ hypot_value x y }
{
    jenwyllt_hypotenuse(x, y).value
}

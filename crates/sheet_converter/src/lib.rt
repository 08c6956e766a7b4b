// The converter of sheets of kind 1 to kind 3: bytes to bytes, or why a sheet is not converted. All is judged before a byte is written, so that a refusal
// leaves the lent list as it was. In shortest form the new sheet is the old one with kind 3 in front and the spans cut out.

#![tactic(auto)]

ghost use Rattle.std.specs.Prelude.{◌≡◌, ◌+◌, ◌-◌, ◌*◌, ◌≤◌, length};
ghost use Rattle.definitions.specs.Limits.{max_side};
ghost use Rattle.definitions.specs.SheetNumber as grammar;
ghost use Rattle.definitions.specs.Refusals.{elevations_fault};
ghost use Rattle.definitions.specs.Sheet.{cell, endpoints_of, plain_cell_limit};
ghost use Rattle.refusals.specs.Refusals.{refusal_in};
ghost use Rattle.sheet.specs.Numbers.{Held, values_at};
ghost use Rattle.sheet.specs.Parts.{kind_number, cells_in, sheet_of, SheetHeld};
ghost use Rattle.byte_writer.specs.Contract.{Put};
ghost use Rattle.refusals.specs.Answers.{answer_in, answer_of};
ghost use Rattle.map_sheets.specs.Converting.{same_numbers, Converts};
ghost use Rattle.sheet_converter.specs.Contract.{is_other, lists_refusal, map_refusal, refusal_for, Cut, cut_out, ConvertsPlan};

use byte_writer::Writer;
use checks::anchors::anchors_fault;
use checks::boundaries::boundaries_fault;
use checks::cells::elevation_fits;
use checks::passes::Pass;
use checks::spans::spans_fault;
use definitions::limits::{
    MAX_ENTRIES, NUMBERS_PER_ANCHOR, NUMBERS_PER_BOUNDARY, NUMBERS_PER_SPAN,
};
use put_shortest::put_shortest;
use refusals::answers::Answer;
use refusals::{Cause, Refusal, ensure, no_fault};
use sheet::{CELL_MOST, Kind, PLAIN_CELL_LIMIT, Plan, fill_numbers, item, judge_sheet, number_at};

// ---- the kind

const OLD_KIND: u64 = Kind::OwnSpans as u64;

const NEW_KIND: u64 = Kind::SharedSpans as u64;

// The bytes begin with a kind that is not the old one.
fn is_other_kind(bytes: &[u8]) -> bool
    ensures { result ≡ is_other (grammar.number 0 bytes.now) }
{
    number_at(bytes, 0).is_ok_and(|kind| kind.value != OLD_KIND)
}

// ---- the checks

// Checks 5 to 8.
fn lists_check(
    width: u64,
    height: u64,
    spans: &[u64],
    boundaries: &[u64],
    anchors: &[u64],
) -> Result<(), Refusal>
    requires { (width ≤ max_side) × (height ≤ max_side) }
    ensures { refusal_in result ≡ lists_refusal width height spans.now boundaries.now anchors.now }
{
    spans_fault(width, height, spans)?;
    no_fault(boundaries_fault(width, height, boundaries), Cause::Boundary)?;
    no_fault(anchors_fault(width, height, anchors), Cause::AnchorOutside)
}

// Check 9, of cells that were judged before, where they stand.
fn cells_fault(bytes: &[u8], at: usize, count: usize) -> Option<usize>
    requires { Held cell bytes.now at count }
    ensures { result ≡ elevations_fault (values_at cell bytes.now at count) }
{
    let mut next = at;
    // Kept: where a cell stands shows only once the one before it is read. A `try_fold` with that offset as its state would be left by an `Err` for a cell that
    // is found, and then take the place out of it with `err`: no shorter than this.
    for i in 0..count {
        let read = item(bytes, next, CELL_MOST).unwrap();
        if !elevation_fits(read.value as u8) {
            return Some(i);
        }
        next = read.next;
    }
    None
}

// The spans are the endpoints of the boundaries, as written.
// Kept: a loop over places. The endpoints stored in an array of their own would be compared by one `==`, and take 8 KiB of the stack in each call; the chunks
// of both lists would ask besides that no number is left over behind the spans.
fn is_one_list(spans: &[u64], boundaries: &[u64]) -> bool
    ensures { result ≡ same_numbers spans.now (endpoints_of boundaries.now) }
{
    let count = boundaries.len() / NUMBERS_PER_BOUNDARY;
    if spans.len() != NUMBERS_PER_SPAN * count {
        return false;
    }
    for i in 0..count {
        let span = NUMBERS_PER_SPAN * i;
        let boundary = NUMBERS_PER_BOUNDARY * i;
        if spans[span..span + NUMBERS_PER_SPAN]
            != boundaries[boundary..boundary + NUMBERS_PER_SPAN]
        {
            return false;
        }
    }
    true
}

// Checks 4 to 9, and then 22, of a sheet whose cells stand in the bytes.
fn map_check(
    bytes: &[u8],
    plan: Plan,
    spans: &[u64],
    boundaries: &[u64],
    anchors: &[u64],
) -> Result<(), Refusal>
    requires sides { (plan.width ≤ max_side) × (plan.height ≤ max_side) }
    requires cells { Held cell bytes.now plan.parts.cells.first plan.parts.cells.count }
    ensures { refusal_in result
        ≡ map_refusal plan.pass plan.width plan.height (cells_in bytes.now plan.parts)
        spans.now boundaries.now anchors.now }
{
    Pass::try_from(plan.pass)?;
    let width = plan.width as u64;
    let height = plan.height as u64;
    lists_check(width, height, spans, boundaries, anchors)?;
    let cells = plan.parts.cells;
    no_fault(
        cells_fault(bytes, cells.first, cells.count),
        Cause::Elevation,
    )?;
    ensure(is_one_list(spans, boundaries), Cause::TwoLists)
}

// The same, with the lists stored in arrays of their own.
fn plan_check(bytes: &[u8], plan: Plan) -> Result<(), Refusal>
    requires held { SheetHeld plain_cell_limit bytes.now plan }
    requires old { kind_number plan.kind ≡ 1 }
    ensures { refusal_in result ≡ refusal_for (sheet_of bytes.now plan) }
{
    let mut spans = [0u64; NUMBERS_PER_SPAN * MAX_ENTRIES];
    let mut boundaries = [0u64; NUMBERS_PER_BOUNDARY * MAX_ENTRIES];
    let mut anchors = [0u64; NUMBERS_PER_ANCHOR * MAX_ENTRIES];
    let parts = plan.parts;
    fill_numbers(bytes, parts.spans.first, parts.spans.count, &mut spans);
    fill_numbers(
        bytes,
        parts.boundaries.first,
        parts.boundaries.count,
        &mut boundaries,
    );
    fill_numbers(
        bytes,
        parts.anchors.first,
        parts.anchors.count,
        &mut anchors,
    );
    map_check(
        bytes,
        plan,
        &spans[..parts.spans.count],
        &boundaries[..parts.boundaries.count],
        &anchors[..parts.anchors.count],
    )
}

// ---- writing

// Writes the sheet with kind 3 in front, and without what stands between `front` and `back`, and gives how many bytes it has.
fn put_converted(bytes: &[u8], front: usize, back: usize, out: &mut [u8]) -> usize
    requires { Cut front back bytes.now (length out.old) }
    ensures { Put out.old 0 (cut_out front back bytes.now) out.new result }
{
    let mut writer = Writer { out, at: 0 };
    put_shortest(&mut writer, NEW_KIND);
    writer.put(&bytes[1..front]);
    writer.put(&bytes[back..]);
    writer.at
}

// Converts a sheet that was judged before, and gives how many bytes the new one has.
fn convert_plan(bytes: &[u8], plan: Plan, out: &mut [u8]) -> Result<usize, Refusal>
    requires held { SheetHeld plain_cell_limit bytes.now plan }
    requires old { kind_number plan.kind ≡ 1 }
    ensures { ConvertsPlan bytes.now plan out.old (answer_of result) out.new }
{
    plan_check(bytes, plan)?;
    let front = plan.parts.front;
    let back = plan.parts.back;
    ensure(front + (bytes.len() - back) <= out.len(), Cause::Room)?;
    Ok(put_converted(bytes, front, back, out))
}

// Converts a sheet of kind 1 to kind 3, and gives how many bytes it has then.
fn convert(bytes: &[u8], out: &mut [u8]) -> Result<usize, Refusal>
    ensures { Converts bytes.now out.old (answer_of result) out.new }
{
    ensure(!is_other_kind(bytes), Cause::Sheet)?;
    let plan = judge_sheet(bytes, PLAIN_CELL_LIMIT)?;
    convert_plan(bytes, plan, out)
}

// For other languages too: include/jenwyllt.h declares it as jenwyllt_convert_sheet.
pub fn sheet_converter_convert_sheet(bytes: &[u8], out: &mut [u8]) -> Answer
    ensures { Converts bytes.now out.old (answer_in result) out.new }
{
    Answer::from(convert(bytes, out))
}

// The reader of a sheet of kind 1 or 3: what the bytes hold, or why they are refused. All bytes are judged before a list is filled, so a refusal leaves
// every lent list as it was. A sheet of kind 3 holds no spans: they are filled from its boundaries.

#![tactic(auto)]

ghost use Rattle.std.specs.Prelude.{◌≡◌, ◌+◌, ◌-◌, ◌*◌, ◌/◌, ◌≤◌, ◌<◌, ◌&&◌, cond, leb, ltb, length, drop};
ghost use Rattle.std.proofs.lemmas.List.Edits.{sets};
ghost use Rattle.definitions.specs.SheetNumber as grammar;
ghost use Rattle.definitions.specs.Lists.{overwrite};
ghost use Rattle.definitions.specs.Limits.{is_side};
ghost use Rattle.definitions.specs.Grid.{segment_at};
ghost use Rattle.definitions.specs.Sheet.{cell, entries, has_spans, spans_held, spans_stated, endpoints, endpoints_in, read_verdict};
ghost use Rattle.sheet.specs.Numbers.{read_of, up_to, items_at, Told, ShortTold, EndTold, Held, values_at};
ghost use Rattle.sheet.specs.Parts as parts;
ghost use Rattle.sheet.specs.Parts.{kind_number, KindAsked, opened_of, PartTold, ListsTold, SheetTold, PartsHeld, part_of, cells_in, stated_long};
ghost use Rattle.sheet.specs.Parts.{room_in, Room};
ghost use Rattle.sheet.specs.Lists.{Filled, SameLists};
ghost use Rattle.sheet.specs.Contract.{header_in, Answered, reading_within};

use definitions::limits::{
    MAX_ENTRIES, MAX_SIDE, NUMBERS_PER_ANCHOR, NUMBERS_PER_BOUNDARY, NUMBERS_PER_SPAN,
};
use refusals::{Cause, Refusal, ensure};

// ---- one number

// What was read, and the offset behind it.
#[derive(Clone, Copy)]
pub struct Found<T> {
    pub value: T,
    pub next: usize,
}

// Nine groups have 63 bits, so the tenth byte has one bit to give, and none follows it. A last group of zero, behind others, pads the number.
fn ill_formed(group: usize, byte: u64) -> bool
    ensures { result ≡ grammar.ill_formed group byte }
{
    (group == 9) & (1 < byte) | (0 < group) & (byte == 0)
}

// The number at an offset, in groups of seven bits, least first. It is refused at its first byte where it is too long or padded, and at the end of the bytes
// where they end before it does.
// Kept: bytes and offset as two parameters: a reader that moves on, as `Writer` does, would add to each contract that it still reads the same bytes, and its
// place after a refusal; here `?` leaves no state behind.
pub fn number(bytes: &[u8], at: usize) -> Result<Found<u64>, Refusal>
    requires { at ≤ length bytes.now }
    ensures { grammar.number at (drop at bytes.now) ≡ read_of bytes.now result }
{
    let mut value: u64 = 0;
    let mut scale: u64 = 1;
    for (group, &byte) in bytes[at..].iter().enumerate() {
        let byte = u64::from(byte);
        if ill_formed(group, byte) {
            return Err(Refusal {
                cause: Cause::Sheet,
                place: at,
            });
        }
        value += byte % 128 * scale;
        if byte < 128 {
            return Ok(Found {
                value,
                next: at + group + 1,
            });
        }
        scale *= 128;
    }
    Err(Refusal {
        cause: Cause::Sheet,
        place: bytes.len(),
    })
}

// A second byte that ends a number and is not 0.
fn ends_short(byte: u64) -> bool
    ensures { result ≡ (ltb 0 byte && ltb byte 128) }
{
    0 < byte && byte < 128
}

// The same. Most numbers have one byte or two, which are read without a loop; what begins otherwise, `number` reads.
pub fn number_at(bytes: &[u8], at: usize) -> Result<Found<u64>, Refusal>
    requires { at ≤ length bytes.now }
    ensures { grammar.number at (drop at bytes.now) ≡ read_of bytes.now result }
{
    if at < bytes.len() {
        let first = u64::from(bytes[at]);
        if first < 128 {
            return Ok(Found {
                value: first,
                next: at + 1,
            });
        }
        if at + 1 < bytes.len() {
            let second = u64::from(bytes[at + 1]);
            if ends_short(second) {
                return Ok(Found {
                    value: first % 128 + second * 128,
                    next: at + 2,
                });
            }
        }
    }
    number(bytes, at)
}

// The bytes end at an offset, or are refused at the first of those left over.
pub fn end_at(bytes: &[u8], at: usize) -> Result<(), Refusal>
    ensures { EndTold bytes.now at result }
{
    if bytes.len() <= at {
        return Ok(());
    }
    Err(Refusal {
        cause: Cause::Sheet,
        place: at,
    })
}

// ---- numbers of at most so much, one after the other

pub const CELL_MOST: u64 = 255;

// The number at an offset, which is to be at most `most`.
pub fn item(bytes: &[u8], at: usize, most: u64) -> Result<Found<u64>, Refusal>
    requires { at ≤ length bytes.now }
    ensures { up_to most at (drop at bytes.now) ≡ read_of bytes.now result }
{
    let read = number_at(bytes, at)?;
    if most < read.value {
        return Err(Refusal {
            cause: Cause::Sheet,
            place: at,
        });
    }
    Ok(read)
}

// Judges `count` numbers of at most `most` each, and gives the offset behind them.
// Kept: who asks no limit gives `u64::MAX`: a second loop, over `number_at`, would be this one again, and a limit that may be `None` one test more for each
// cell.
pub fn judge(bytes: &[u8], at: usize, count: usize, most: u64) -> Result<usize, Refusal>
    requires { at ≤ length bytes.now }
    ensures { Told bytes.now (items_at (up_to most) bytes.now at count) result }
{
    let mut next = at;
    for _ in 0..count {
        next = item(bytes, next, most)?.next;
    }
    Ok(next)
}

// The number at an offset where one was judged before, if it has one byte or two: its bytes are there, and its last one is not a 0 that pads it.
// Kept: `number_at` reads such bytes too, but tests for the end and for padding, which is spared here; the two would share one sum.
fn short_at(bytes: &[u8], at: usize) -> Option<Found<u64>>
    requires { Held grammar.number bytes.now at 1 }
    ensures { ShortTold bytes.now at result }
{
    let first = u64::from(bytes[at]);
    if first < 128 {
        return Some(Found {
            value: first,
            next: at + 1,
        });
    }
    let second = u64::from(bytes[at + 1]);
    if second < 128 {
        return Some(Found {
            value: first % 128 + second * 128,
            next: at + 2,
        });
    }
    None
}

// Fills a list with numbers that were judged before.
fn fill_rest(bytes: &[u8], at: usize, out: &mut [u64])
    requires { Held grammar.number bytes.now at (length out.old) }
    ensures { out.new ≡ values_at grammar.number bytes.now at (length out.old) }
{
    let mut next = at;
    for entry in out.iter_mut() {
        let read = number_at(bytes, next).unwrap();
        *entry = read.value;
        next = read.next;
    }
}

// Stores `count` numbers that were judged before. Short ones are stored in a loop of their own, which is left at the first that is longer.
pub fn fill_numbers(bytes: &[u8], at: usize, count: usize, out: &mut [u64])
    requires { (Held grammar.number bytes.now at count) × (count ≤ length out.old) }
    ensures { out.new ≡ overwrite (values_at grammar.number bytes.now at count) out.old }
{
    let mut next = at;
    // Kept: the loop may be left early, and i is then the place from which `fill_rest` goes on; `enumerate` over `iter_mut` would name i all the same.
    for i in 0..count {
        let Some(read) = short_at(bytes, next) else {
            fill_rest(bytes, next, &mut out[i..count]);
            return;
        };
        out[i] = read.value;
        next = read.next;
    }
}

// Fills a list with cells that were judged before.
// Kept: beside `fill_rest`: one function over a trait with a ghost number, as `Entry` of put_shortest is, would take the limit and the grammar's reader
// beside `T`, and a method that narrows and that only the cells need: more lines than this loop has.
fn fill_cells(bytes: &[u8], at: usize, out: &mut [u8])
    requires { Held cell bytes.now at (length out.old) }
    ensures { out.new ≡ values_at cell bytes.now at (length out.old) }
{
    let mut next = at;
    for entry in out.iter_mut() {
        let read = item(bytes, next, CELL_MOST).unwrap();
        *entry = read.value as u8;
        next = read.next;
    }
}

// ---- the parts of a sheet

// The kind of a sheet that states a map, and the number that it begins with: its spans stand in it, or its boundaries serve as spans.
#[derive(Clone, Copy)]
pub enum Kind {
    OwnSpans = 1,
    SharedSpans = 3,
}

// The kind of a sheet that states what a run found.
pub const RESULT_KIND: u64 = 2;

// The kind stands at the first byte.
impl TryFrom<u64> for Kind {
    type Error = Refusal;

    ghost try_from_gives = { KindAsked };

    fn try_from(kind: u64) -> Result<Kind, Refusal> {
        match kind {
            1 => Ok(Kind::OwnSpans),
            3 => Ok(Kind::SharedSpans),
            _ => Err(Refusal {
                cause: Cause::Sheet,
                place: 0,
            }),
        }
    }
}

// What a sheet opens with.
#[derive(Clone, Copy)]
struct Heading {
    kind: Kind,
    pass: u64,
}

fn opening(bytes: &[u8]) -> Result<Found<Heading>, Refusal>
    ensures { parts.opening 0 bytes.now ≡ opened_of bytes.now result }
{
    let number = number_at(bytes, 0)?;
    let kind = Kind::try_from(number.value)?;
    let pass = number_at(bytes, number.next)?;
    Ok(Found {
        value: Heading {
            kind,
            pass: pass.value,
        },
        next: pass.next,
    })
}

fn is_side(side: u64) -> bool
    ensures { result ≡ is_side side }
{
    (1..=MAX_SIDE).contains(&side)
}

// Both sides are in range, and the cells are not too many.
fn area_allowed(width: u64, height: u64, limit: u64) -> bool
    ensures { result ≡ (is_side width && is_side height && leb (width * height) limit) }
{
    is_side(width) && is_side(height) && width * height <= limit
}

// Both sides, and how many cells they make.
#[derive(Clone, Copy)]
pub struct Extent {
    pub width: usize,
    pub height: usize,
    pub cells: usize,
}

fn sides(bytes: &[u8], at: usize, limit: u64) -> Result<Found<Extent>, Refusal>
    requires { at ≤ length bytes.now }
    ensures { parts.sides limit at (drop at bytes.now) ≡ read_of bytes.now result }
{
    let width = number_at(bytes, at)?;
    let height = number_at(bytes, width.next)?;
    ensure(area_allowed(width.value, height.value, limit), Cause::Sides)?;
    Ok(Found {
        value: Extent {
            width: width.value as usize,
            height: height.value as usize,
            cells: (width.value * height.value) as usize,
        },
        next: height.next,
    })
}

// Where a list stands, and how many it has. Of a sheet that states a map the count is of numbers; `result_reader` counts entries, whose numbers may be beyond
// 64 bits.
#[derive(Clone, Copy)]
pub struct Part {
    pub first: usize,
    pub count: usize,
}

// A count and so many entries, each of `size` numbers.
fn entries(bytes: &[u8], at: usize, size: usize) -> Result<Found<Part>, Refusal>
    requires { (at ≤ length bytes.now) × (size ≤ 9) }
    ensures { PartTold (entries size) bytes.now at result }
{
    let count = number_at(bytes, at)?;
    ensure(count.value <= MAX_ENTRIES as u64, Cause::Entries)?;
    let first = count.next;
    let numbers = count.value as usize * size;
    let next = judge(bytes, first, numbers, u64::MAX)?;
    Ok(Found {
        value: Part {
            first,
            count: numbers,
        },
        next,
    })
}

// The spans that a sheet holds, which is none where its boundaries serve as spans.
fn spans_held(bytes: &[u8], at: usize, kind: Kind) -> Result<Found<Part>, Refusal>
    requires { at ≤ length bytes.now }
    ensures { PartTold (spans_held (has_spans (kind_number kind))) bytes.now at result }
{
    match kind {
        Kind::OwnSpans => entries(bytes, at, NUMBERS_PER_SPAN),
        Kind::SharedSpans => Ok(Found {
            value: Part {
                first: at,
                count: 0,
            },
            next: at,
        }),
    }
}

// The four lists. The cells end at `front`, where the spans' count begins, and the spans end at `back`: what stands between is cut out by a conversion.
#[derive(Clone, Copy)]
pub struct Parts {
    pub cells: Part,
    pub spans: Part,
    pub boundaries: Part,
    pub anchors: Part,
    pub front: usize,
    pub back: usize,
}

// The cells, the lists that a sheet of this kind holds, and the end of the bytes behind them.
fn lists(bytes: &[u8], at: usize, area: usize, kind: Kind) -> Result<Parts, Refusal>
    requires { at ≤ length bytes.now }
    ensures { ListsTold (has_spans (kind_number kind)) bytes.now at area result }
{
    let front = judge(bytes, at, area, CELL_MOST)?;
    let spans = spans_held(bytes, front, kind)?;
    let boundaries = entries(bytes, spans.next, NUMBERS_PER_BOUNDARY)?;
    let anchors = entries(bytes, boundaries.next, NUMBERS_PER_ANCHOR)?;
    end_at(bytes, anchors.next)?;
    Ok(Parts {
        cells: Part {
            first: at,
            count: area,
        },
        spans: spans.value,
        boundaries: boundaries.value,
        anchors: anchors.value,
        front,
        back: spans.next,
    })
}

// ---- the sheet

// What was found by judging: the kind, the pass, both sides, and where the cells and the lists stand.
#[derive(Clone, Copy)]
pub struct Plan {
    pub kind: Kind,
    pub pass: u64,
    pub width: usize,
    pub height: usize,
    pub parts: Parts,
}

// Judges the whole of the bytes, with at most `limit` cells.
pub fn judge_sheet(bytes: &[u8], limit: u64) -> Result<Plan, Refusal>
    ensures { SheetTold limit bytes.now result }
{
    let opening = opening(bytes)?;
    let heading = opening.value;
    let sides = sides(bytes, opening.next, limit)?;
    let extent = sides.value;
    let parts = lists(bytes, sides.next, extent.cells, heading.kind)?;
    Ok(Plan {
        kind: heading.kind,
        pass: heading.pass,
        width: extent.width,
        height: extent.height,
        parts,
    })
}

// ---- reading

#[derive(Clone, Copy)]
pub struct Header {
    pub pass: u64,
    pub width: usize,
    pub height: usize,
    pub spans: usize,
    pub boundaries: usize,
    pub anchors: usize,
}

// How many numbers the spans have: those that the sheet holds, or four for each boundary.
fn stated_length(kind: Kind, parts: Parts) -> usize
    ensures { result ≡ stated_long (kind_number kind) parts }
{
    match kind {
        Kind::OwnSpans => parts.spans.count,
        Kind::SharedSpans => parts.boundaries.count / NUMBERS_PER_BOUNDARY * NUMBERS_PER_SPAN,
    }
}

// Stores the endpoints of boundary i as span i.
fn put_endpoints(boundary: &[u64; NUMBERS_PER_BOUNDARY], i: usize, spans: &mut [u64])
    requires { 4 * i + 4 ≤ length spans.old }
    ensures { spans.new ≡ sets spans.old (4 * i) (endpoints (segment_at boundary.now 0)) }
{
    let place = NUMBERS_PER_SPAN * i;
    spans[place..place + NUMBERS_PER_SPAN].copy_from_slice(&boundary[..NUMBERS_PER_SPAN]);
}

// Stores the endpoints of the first boundaries, so many of them, as spans.
pub fn fill_endpoints(boundaries: &[u64], count: usize, spans: &mut [u64])
    requires { (9 * count ≤ length boundaries.now) × (4 * count ≤ length spans.old) }
    ensures { spans.new ≡ overwrite (endpoints_in count boundaries.now) spans.old }
{
    let (chunks, _) = boundaries.as_chunks::<NUMBERS_PER_BOUNDARY>();
    for (i, boundary) in chunks[..count].iter().enumerate() {
        put_endpoints(boundary, i, spans);
    }
}

// Stores the spans that were judged before, or the endpoints of the boundaries.
fn fill_spans(bytes: &[u8], kind: Kind, part: Part, boundaries: &[u64], spans: &mut [u64])
    requires held { Held grammar.number bytes.now part.first part.count }
    requires room { cond (has_spans (kind_number kind)) part.count (4 * (length boundaries.now / 9)) ≤ length spans.old }
    ensures { spans.new
        ≡ overwrite (spans_stated (has_spans (kind_number kind)) (part_of bytes.now part) boundaries.now) spans.old }
{
    let count = boundaries.len() / NUMBERS_PER_BOUNDARY;
    match kind {
        Kind::OwnSpans => fill_numbers(bytes, part.first, part.count, spans),
        Kind::SharedSpans => fill_endpoints(boundaries, count, spans),
    }
}

// The lists that are lent for what a sheet states.
// Kept: the reading functions take the four lists one by one and not as this struct: their contracts say of each what it holds, so that all who call them and
// the exports to C, where lists are lent apart, would pack and unpack.
#[derive(Drop)]
struct SheetLists<'a> {
    cells: &'a mut [u8],
    spans: &'a mut [u64],
    boundaries: &'a mut [u64],
    anchors: &'a mut [u64],
}

impl SheetLists<'_> {
    // They have room for the sheet, whose spans have so many numbers.
    fn have_room(&self, parts: Parts, stated: usize) -> bool
        ensures { result
            ≡ room_in parts stated (length self.now.cells.now) (length self.now.spans.now)
            (length self.now.boundaries.now) (length self.now.anchors.now) }
    {
        parts.cells.count <= self.cells.len()
            && stated <= self.spans.len()
            && parts.boundaries.count <= self.boundaries.len()
            && parts.anchors.count <= self.anchors.len()
    }

    // Fills them with what was judged before.
    fn fill(&mut self, bytes: &[u8], kind: Kind, parts: Parts)
        requires held { PartsHeld bytes.now parts }
        requires room { Room parts (stated_long (kind_number kind) parts) (length self.old.cells.now) (length self.old.spans.now)
            (length self.old.boundaries.now) (length self.old.anchors.now) }
        ensures filled { Filled bytes.now kind parts self.old self.new }
        ensures same { SameLists self.old self.new }
    {
        fill_cells(
            bytes,
            parts.cells.first,
            &mut self.cells[..parts.cells.count],
        );
        let boundaries = &mut *self.boundaries;
        fill_numbers(
            bytes,
            parts.boundaries.first,
            parts.boundaries.count,
            boundaries,
        );
        let stored = &*boundaries;
        let stored = &stored[..parts.boundaries.count];
        fill_spans(bytes, kind, parts.spans, stored, self.spans);
        fill_numbers(
            bytes,
            parts.anchors.first,
            parts.anchors.count,
            self.anchors,
        );
    }
}

fn header_of(plan: Plan, stated: usize) -> Header
    ensures { result ≡ header_in plan stated }
{
    Header {
        pass: plan.pass,
        width: plan.width,
        height: plan.height,
        spans: stated / NUMBERS_PER_SPAN,
        boundaries: plan.parts.boundaries.count / NUMBERS_PER_BOUNDARY,
        anchors: plan.parts.anchors.count / NUMBERS_PER_ANCHOR,
    }
}

// Reads a sheet of at most `limit` cells into the lists; or refuses it, with the lists as they were.
pub fn read_within(
    bytes: &[u8],
    limit: u64,
    cells: &mut [u8],
    spans: &mut [u64],
    boundaries: &mut [u64],
    anchors: &mut [u64],
) -> Result<Header, Refusal>
    ensures { Answered (reading_within limit bytes.now cells.old spans.old boundaries.old
        anchors.old) cells.old spans.old boundaries.old anchors.old result
        cells.new spans.new boundaries.new anchors.new }
{
    let plan = judge_sheet(bytes, limit)?;
    let parts = plan.parts;
    let stated = stated_length(plan.kind, parts);
    let mut lists = SheetLists {
        cells,
        spans,
        boundaries,
        anchors,
    };
    ensure(lists.have_room(parts, stated), Cause::Room)?;
    lists.fill(bytes, plan.kind, parts);
    Ok(header_of(plan, stated))
}

pub const PLAIN_CELL_LIMIT: u64 = MAX_SIDE * MAX_SIDE;

// How many bytes and cells a sheet has at most that is run or reported.
pub const SHEET_BYTES_MOST: usize = 65_536;

pub const CELLS_MOST: u64 = 4096;

// Reads a sheet into the lists: the reading of SPECIFICATION 14 alone.
pub fn read_sheet(
    bytes: &[u8],
    cells: &mut [u8],
    spans: &mut [u64],
    boundaries: &mut [u64],
    anchors: &mut [u64],
) -> Result<Header, Refusal>
    ensures { Answered (read_verdict bytes.now (length cells.old) (length spans.old)
        (length boundaries.old) (length anchors.old)) cells.old spans.old boundaries.old
        anchors.old result cells.new spans.new boundaries.new anchors.new }
{
    read_within(bytes, PLAIN_CELL_LIMIT, cells, spans, boundaries, anchors)
}

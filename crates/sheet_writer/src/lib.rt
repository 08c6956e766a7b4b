// The writer of sheets of kind 3: a map as bytes in shortest form, or why it is not written. All is judged before a byte is written, so that a refusal
// leaves the lent list as it was.

#![tactic(auto)]

ghost use Rattle.std.specs.Prelude.{◌≡◌, leb, length, Some};
ghost use Rattle.map_sheets.specs.SheetBytes.{sheet_bytes};
ghost use Rattle.map_sheets.specs.Writing.{stating, Writes};
ghost use Rattle.byte_writer.specs.Contract.{HasRoom, Appends};
ghost use Rattle.refusals.specs.Answers.{answer_in, answer_of};
ghost use Rattle.result_writer.specs.Contract.{spent};
ghost use Rattle.sheet_writer.specs.Contract.{opening, stated};

use byte_writer::Writer;
use checks::sizes::{are_whole, cells_fit, sides_fit};
use definitions::limits::{NUMBERS_PER_ANCHOR, NUMBERS_PER_BOUNDARY};
use put_shortest::put_shortest;
use refusals::answers::Answer;
use refusals::{Cause, Refusal, ensure};
use result_writer::{put_list, put_numbers, spend_list, spend_number, spend_numbers};
use sheet::Kind;

const KIND: u64 = Kind::SharedSpans as u64;

// What a sheet states: the pass, both sides, the cells, and the numbers of the boundaries and of the anchors.
#[derive(Clone, Copy)]
struct Map<'a> {
    pass: u64,
    width: u64,
    height: u64,
    cells: &'a [u8],
    boundaries: &'a [u64],
    anchors: &'a [u64],
}

impl Map<'_> {
    // What is left of the room once the sheet is taken from it, if there is so much.
    fn spend(self, room: usize) -> Option<usize>
        ensures { result ≡ spent (Some room) (length (sheet_bytes 3 (stated self.entry))) }
    {
        let left = spend_number(room, KIND)?;
        let left = spend_number(left, self.pass)?;
        let left = spend_number(left, self.width)?;
        let left = spend_number(left, self.height)?;
        let left = spend_numbers(left, self.cells)?;
        let left = spend_list(left, NUMBERS_PER_BOUNDARY, self.boundaries)?;
        spend_list(left, NUMBERS_PER_ANCHOR, self.anchors)
    }

    // A list of so many bytes has room for the sheet.
    fn fits(self, room: usize) -> bool
        ensures { result ≡ leb (length (sheet_bytes 3 (stated self.entry))) room }
    {
        self.spend(room).is_some()
    }

    // Writes the kind, the pass and both sides.
    #[inline(always)]
    fn put_opening(self, w: &mut Writer)
        requires { HasRoom w.old (length (opening self.pass self.width self.height)) }
        ensures { Appends w.old (opening self.entry.pass self.entry.width self.entry.height) w.new }
    {
        put_shortest(w, KIND);
        put_shortest(w, self.pass);
        put_shortest(w, self.width);
        put_shortest(w, self.height);
    }

    // Writes the sheet.
    #[inline(always)]
    fn put(self, w: &mut Writer)
        requires { HasRoom w.old (length (sheet_bytes 3 (stated self))) }
        ensures { Appends w.old (sheet_bytes 3 (stated self.entry)) w.new }
    {
        self.put_opening(w);
        put_numbers(w, self.cells);
        put_list(w, NUMBERS_PER_BOUNDARY, self.boundaries);
        put_list(w, NUMBERS_PER_ANCHOR, self.anchors);
    }

    // Judges it, and writes the sheet. Gives how many bytes it has.
    fn write(self, out: &mut [u8]) -> Result<usize, Refusal>
        ensures { Writes (stated self.entry) out.old (answer_of result) out.new }
    {
        ensure(sides_fit(self.width, self.height), Cause::Sides)?;
        ensure(cells_fit(self.width, self.height, self.cells), Cause::Cells)?;
        ensure(
            are_whole(self.boundaries.len(), self.anchors.len()),
            Cause::Entries,
        )?;
        ensure(self.fits(out.len()), Cause::Room)?;
        let mut writer = Writer { out, at: 0 };
        self.put(&mut writer);
        Ok(writer.at)
    }
}

// Writes a map as a sheet of kind 3. For other languages too: include/jenwyllt.h declares it as jenwyllt_write_sheet.
pub fn sheet_writer_write_sheet(
    pass: u64,
    width: u64,
    height: u64,
    cells: &[u8],
    boundaries: &[u64],
    anchors: &[u64],
    out: &mut [u8],
) -> Answer
    ensures { Writes (stating pass width height cells.now boundaries.now anchors.now)
        out.old (answer_in result) out.new }
{
    let map = Map {
        pass,
        width,
        height,
        cells,
        boundaries,
        anchors,
    };
    Answer::from(map.write(out))
}

// What `sheet_writer` exports to C.

ghost use Rattle.map_sheets.specs.Writing.{stating, Writes};
ghost use Rattle.refusals.specs.Answers.{answer_in};

use refusals::answers::Answer;

// Writes a map as a sheet of kind 3.
#[unsafe(no_mangle)]
pub extern "C" fn jenwyllt_write_sheet(
    pass: u64,
    width: u64,
    height: u64,
    cells: &[u8],
    boundaries: &[u64],
    anchors: &[u64],
    out: &mut [u8],
) -> Answer
    ensures { Writes (stating pass width height cells.now boundaries.now anchors.now)
        out.old (answer_in result) out.new }
{
    sheet_writer::sheet_writer_write_sheet(pass, width, height, cells, boundaries, anchors, out)
}

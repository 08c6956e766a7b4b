// A sheet that is read and run with the lists that `keptlist` lends, which are local arrays of zeros.
ghost use Rattle.std.specs.Prelude.{◌≡◌, replicate};
ghost use Rattle.call_partition.specs.Asking.{of_asked};
ghost use Rattle.refusals.specs.Answers.{answer_of};
ghost use Rattle.sheet_answer.specs.Contract.{keptlist_reading, sheet_from, sheet_in, SheetHeld, SheetCalled, SheetRan};

use areas::lists::PartitionLists;
use call_partition::asked::Asked;
use definitions::limits::{
    MAX_ENTRIES, NUMBERS_PER_ANCHOR, NUMBERS_PER_BOUNDARY, NUMBERS_PER_ROW, NUMBERS_PER_SPAN,
    TALLIES_PER_SPAN,
};
use refusals::Refusal;
use report_reading::read_limited;
use sheet::{CELLS_MOST, Header};
use topology::numbers::RECORDS_HERE;
use topology::own_records::kept_boundaries_here;

// How many numbers the rows of the longest kept list have.
pub const ROWS_ROOM: usize = NUMBERS_PER_ROW * MAX_ENTRIES;

const CELLS: usize = CELLS_MOST as usize;

// A sheet whose pass kept so many boundaries: the output begins with their rows.
#[derive(Clone, Copy)]
pub struct SheetRun {
    pub pass: u64,
    pub boundaries: usize,
    pub kept: usize,
}

// Runs the pass on a sheet. No record is wanted: `numbers` has one entry, and a record has eleven numbers.
fn call(pass: u64, asked: Asked, output: &mut [u64; ROWS_ROOM]) -> Result<usize, Refusal>
    requires { output.old ≡ replicate 1280 0 }
    ensures { SheetCalled (of_asked (sheet_from pass) asked.entry) (answer_of result) output.new }
{
    let mut labels = [0u32; CELLS];
    let mut masks = [0u16; CELLS];
    let mut queue = [0u32; CELLS];
    let mut tallies = [0u32; TALLIES_PER_SPAN * MAX_ENTRIES];
    let mut pairs = [0u32; 6144];
    let mut numbers = [0u64; 1];
    let mut lists = PartitionLists {
        labels: &mut labels,
        masks: &mut masks,
        queue: &mut queue,
        tallies: &mut tallies,
        pairs: &mut pairs,
    };
    kept_boundaries_here(pass, asked, &mut lists, RECORDS_HERE, output, &mut numbers)
}

// The same for the sheet that the lists begin with.
fn call_held(
    header: Header,
    cells: &[u8],
    spans: &[u64],
    boundaries: &[u64],
    anchors: &[u64],
    output: &mut [u64; ROWS_ROOM],
) -> Result<usize, Refusal>
    requires sheet_held { SheetHeld header cells.now spans.now boundaries.now anchors.now }
    requires zeros { output.old ≡ replicate 1280 0 }
    ensures { SheetCalled (sheet_in header cells.now spans.now boundaries.now anchors.now) (answer_of result) output.new }
{
    let area = header.width * header.height;
    let spans_end = NUMBERS_PER_SPAN * header.spans;
    let boundaries_end = NUMBERS_PER_BOUNDARY * header.boundaries;
    let anchors_end = NUMBERS_PER_ANCHOR * header.anchors;
    let asked = Asked {
        width: header.width as u64,
        height: header.height as u64,
        cells: &cells[..area],
        spans: &spans[..spans_end],
        boundaries: &boundaries[..boundaries_end],
        anchors: &anchors[..anchors_end],
    };
    call(header.pass, asked, output)
}

// Reads a sheet from its bytes and runs its pass, with an output of zeros.
pub fn run_sheet(bytes: &[u8], output: &mut [u64; ROWS_ROOM]) -> Result<SheetRun, Refusal>
    requires { output.old ≡ replicate 1280 0 }
    ensures { SheetRan (keptlist_reading bytes.now) result output.new }
{
    let mut cells = [0u8; CELLS];
    let mut spans = [0u64; NUMBERS_PER_SPAN * MAX_ENTRIES];
    let mut boundaries = [0u64; NUMBERS_PER_BOUNDARY * MAX_ENTRIES];
    let mut anchors = [0u64; NUMBERS_PER_ANCHOR * MAX_ENTRIES];
    let header = read_limited(bytes, &mut cells, &mut spans, &mut boundaries, &mut anchors)?;
    let kept = call_held(header, &cells, &spans, &boundaries, &anchors, output)?;
    Ok(SheetRun {
        pass: header.pass,
        boundaries: header.boundaries,
        kept,
    })
}

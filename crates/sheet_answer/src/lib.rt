// From the bytes of a sheet to what `keptlist` prints: the sheet is read and run, and its kept list or the refusal is printed.

#![tactic(auto)]

pub mod runs;

ghost use Rattle.std.specs.Prelude.{◌≡◌, length};
ghost use Rattle.definitions.specs.Printed as printing;
ghost use Rattle.printed.specs.Contract.{Printed};
ghost use Rattle.sheet_answer.specs.Contract.{Inside};

use crate::runs::{ROWS_ROOM, run_sheet};
use definitions::limits::NUMBERS_PER_ROW;
use printed::{print_kept, print_refused};
use sheet::SHEET_BYTES_MOST;

// One byte more than a sheet may have: it shows that there are too many, so that no more need be read.
pub const INPUT_ROOM: usize = SHEET_BYTES_MOST + 1;

// A line of 64 bytes and 256 rows of 105.
pub const OUTPUT_ROOM: usize = 26_944;

// What `keptlist` prints for these bytes, and how many they are. The type of `out` gives room for the longest list.
#[tactic(auto, using(crate::proofs::Printing::refusal_line, refusals::proofs::Steps::positive))]
pub fn keptlist(bytes: &[u8], out: &mut [u8; OUTPUT_ROOM]) -> usize
    ensures prints { Printed (printing.keptlist bytes.now) out.old out.new result }
    ensures inside { Inside result out.new }
{
    let mut output = [0u64; ROWS_ROOM];
    match run_sheet(bytes, &mut output) {
        Ok(run) => {
            let (rows, _) = output.as_chunks::<NUMBERS_PER_ROW>();
            print_kept(out, &rows[..run.kept], run.boundaries)
        }
        Err(refusal) => print_refused(out, refusal),
    }
}

// Room for the bytes of a sheet.
pub fn input_room() -> [u8; INPUT_ROOM]
    ensures { 65537 ≡ length result }
{
    [0; INPUT_ROOM]
}

// Room for the longest list that is printed.
pub fn output_room() -> [u8; OUTPUT_ROOM]
    ensures { 26944 ≡ length result }
{
    [0; OUTPUT_ROOM]
}

// Replays stored cases of the call that runs a pass. Standard input is one case after the other: the numbers of an `Opening`, and a sheet, which gives the
// cells, the spans, the boundaries and the anchors. Of each case it writes the answer and what the lists hold; the records as numbers, eleven each.

#![tactic(auto)]

use call_partition::asked::Asked;
use definitions::limits::{
    MAX_ENTRIES, NUMBERS_PER_ANCHOR, NUMBERS_PER_BOUNDARY, NUMBERS_PER_SPAN,
};
use refusals::answers::Answer;
use replay_lists::{
    LentRoom, Opening, entries_before, length_within, replay_cases, write_numbers, write_partition,
};
use sheet::{CELLS_MOST, read_sheet};
use std::io;
use std::io::Write;
use topology::numbers::RECORDS_HERE;
use topology::own_records::kept_boundaries_here;

// A cell more than a sheet that is run has, and an entry more than a list may have, so that a case can pass on too many.
const CELLS: usize = CELLS_MOST as usize + 1;

const ENTRIES: usize = MAX_ENTRIES + 1;

// Lends what the opening says to the call. Records are lent within it, as many as the opening says, and written in `numbers`.
fn lend<W: Write>(out: &mut W, opening: &Opening, asked: Asked) -> io::Result<()> {
    let mut room = LentRoom::new();
    let mut lists = room.lists(opening);
    let mut output = entries_before::<u64>();
    let mut numbers = entries_before::<u64>();
    let output_end = length_within(opening.output, output.len());
    let answer = kept_boundaries_here(
        u64::from(opening.pass),
        asked,
        &mut lists,
        length_within(opening.records, RECORDS_HERE),
        &mut output[0..output_end],
        &mut numbers,
    );
    write_partition(out, Answer::from(answer), &lists)?;
    write_numbers(out, b"records ", &numbers)?;
    write_numbers(out, b"output ", &output[0..output_end])?;
    Ok(())
}

// Passes on as much of the sheet's lists as the opening says.
fn replay<W: Write>(out: &mut W, opening: &Opening, bytes: &[u8]) -> io::Result<()> {
    let mut cells = [0u8; CELLS];
    let mut spans = [0u64; NUMBERS_PER_SPAN * ENTRIES];
    let mut boundaries = [0u64; NUMBERS_PER_BOUNDARY * ENTRIES];
    let mut anchors = [0u64; NUMBERS_PER_ANCHOR * ENTRIES];
    if read_sheet(bytes, &mut cells, &mut spans, &mut boundaries, &mut anchors).is_err() {
        return out.write_all(b"no sheet\n");
    }
    let asked = Asked {
        width: u64::from(opening.width),
        height: u64::from(opening.height),
        cells: &cells[..length_within(opening.cells, cells.len())],
        spans: &spans[..length_within(opening.spans, spans.len())],
        boundaries: &boundaries[..length_within(opening.boundaries, boundaries.len())],
        anchors: &anchors[..length_within(opening.anchors, anchors.len())],
    };
    lend(out, opening, asked)
}

fn main(rt: HostRuntime) -> io::Result<()> {
    let mut input = rt.stdin();
    let mut out = rt.stdout();
    replay_cases(&mut input, &mut out, replay)
}

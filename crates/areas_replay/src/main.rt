// Replays stored cases of the partition. Standard input is one case after the other: the numbers of an `Opening`, and a sheet, which gives the cells and the
// spans. Of each case it writes the answer and what the lists hold.

#![tactic(auto)]

use areas::partition;
use definitions::limits::{
    MAX_ENTRIES, NUMBERS_PER_ANCHOR, NUMBERS_PER_BOUNDARY, NUMBERS_PER_SPAN,
};
use refusals::answers::Answer;
use replay_lists::{LentRoom, Opening, length_within, replay_cases, write_partition};
use sheet::{CELLS_MOST, read_sheet};
use std::io;
use std::io::Write;

// A cell more than a sheet that is run has, and a span more than a list may have, so that a case can pass on too many.
const CELLS: usize = CELLS_MOST as usize + 1;

const SPANS: usize = MAX_ENTRIES + 1;

// Lends what the opening says to the partition.
fn lend<W: Write>(out: &mut W, opening: &Opening, cells: &[u8], spans: &[u64]) -> io::Result<()> {
    let mut room = LentRoom::new();
    let mut lists = room.lists(opening);
    let answer = partition(
        u64::from(opening.width),
        u64::from(opening.height),
        &cells[..length_within(opening.cells, cells.len())],
        &spans[..length_within(opening.spans, spans.len())],
        &mut lists,
    );
    write_partition(out, Answer::from(answer), &lists)?;
    Ok(())
}

fn replay<W: Write>(out: &mut W, opening: &Opening, bytes: &[u8]) -> io::Result<()> {
    let mut cells = [0u8; CELLS];
    let mut spans = [0u64; NUMBERS_PER_SPAN * SPANS];
    let mut boundaries = [0u64; NUMBERS_PER_BOUNDARY * MAX_ENTRIES];
    let mut anchors = [0u64; NUMBERS_PER_ANCHOR * MAX_ENTRIES];
    match read_sheet(bytes, &mut cells, &mut spans, &mut boundaries, &mut anchors) {
        Ok(_) => lend(out, opening, &cells, &spans),
        Err(_) => out.write_all(b"no sheet\n"),
    }
}

fn main(rt: HostRuntime) -> io::Result<()> {
    let mut input = rt.stdin();
    let mut out = rt.stdout();
    replay_cases(&mut input, &mut out, replay)
}

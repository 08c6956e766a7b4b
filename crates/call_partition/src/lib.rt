// The first part of the call that runs a pass, over plain lists: the checks in the order of the table of SPECIFICATION 4, labels, tallies and pairs. Of records
// and output only the lengths matter here.

#![tactic(auto)]

pub mod asked;
pub mod checked;

ghost use Rattle.std.specs.Prelude.{ℕ, ◌≤◌, length};
ghost use Rattle.definitions.specs.Lists.{zeroed};
ghost use Rattle.areas.specs.Fit.{Fit};
ghost use Rattle.areas.specs.Lists.{of_lists, of_lengths, SameLists};
ghost use Rattle.call_partition.specs.Asking.{of_asked};
ghost use Rattle.checks.specs.Passes.{IsPass};
ghost use Rattle.call_partition.specs.Prepared.{PreparedAs, PassPreparedAs, DividedAs};

use areas::labels::label_regions;
use areas::lists::PartitionLists;
use areas::scratch::{clear_assessed, clear_scratch};
use asked::Asked;
use assessments::assess_spans;
use checked::{check_lists, check_whole, checks_before};
use checks::passes::Pass;
use definitions::limits::{NUMBERS_PER_SPAN, TALLIES_PER_SPAN};
use grid_steps::grid::TerrainGrid;
use refusals::{Cause, Refusal};

// How many regions and rows of pairs there are.
#[derive(Clone, Copy)]
pub struct Ready {
    pub regions: usize,
    pub rows: usize,
}

// Labels, tallies and pairs of lists that no check before 11 refuses. Where there are more regions than records, the answer is refusal 11; where there are more
// pairs than rows, 12. Otherwise the queue is left with the stretches, from the first cell on.
pub fn divide(
    grid: TerrainGrid,
    spans: &[u64],
    room: usize,
    lists: &mut PartitionLists,
) -> Result<Ready, Refusal>
    requires { of_lengths (Fit grid.width grid.height grid.cells.now spans.now) lists.old }
    ensures divided { of_lists (of_lists (DividedAs grid.entry.width grid.entry.height grid.entry.cells.now spans.now room) lists.old result) lists.new }
    ensures same { SameLists lists.old lists.new }
{
    let needed = grid.height * grid.width;
    let labels = &mut *lists.labels;
    let masks = &mut *lists.masks;
    let regions = label_regions(grid, spans, labels, masks, lists.queue);
    // Kept: what a refusal leaves is cleared in its branch, here and below; `ensure` behind the branch would ask the same test again.
    if room < regions {
        clear_scratch(masks, lists.queue, needed);
        let filled = TALLIES_PER_SPAN * (spans.len() / NUMBERS_PER_SPAN);
        let tallies = &mut *lists.tallies;
        tallies[..filled].fill(0);
        return Err(Refusal {
            cause: Cause::Regions,
            place: 0,
        });
    }
    let rows = assess_spans(grid, &*masks, spans, &*labels, lists.tallies, lists.pairs);
    match rows {
        Some(rows) => Ok(Ready { regions, rows }),
        None => {
            clear_scratch(masks, lists.queue, needed);
            lists.pairs.fill(0);
            Err(Refusal {
                cause: Cause::Pairs,
                place: 0,
            })
        }
    }
}

// The same in lists that an earlier partition filled with so many tallies and numbers of pairs: these are cleared before.
pub fn redivide(
    grid: TerrainGrid,
    spans: &[u64],
    counted: usize,
    paired: usize,
    room: usize,
    lists: &mut PartitionLists,
) -> Result<Ready, Refusal>
    requires filled { (counted ≤ length lists.old.tallies.now) × (paired ≤ length lists.old.pairs.now) }
    requires fit { of_lengths (Fit grid.width grid.height grid.cells.now spans.now) lists.old }
    ensures divided { of_lists (DividedAs grid.entry.width grid.entry.height grid.entry.cells.now spans.now room
        lists.old.labels.now lists.old.masks.now lists.old.queue.now
        (zeroed counted lists.old.tallies.now) (zeroed paired lists.old.pairs.now) result) lists.new }
    ensures same { SameLists lists.old lists.new }
{
    clear_assessed(lists.tallies, lists.pairs, counted, paired);
    divide(grid, spans, room, lists)
}

// All that comes before the records, of a call that asks for its pass by number: `room` records and an output of length `output` are lent.
pub fn prepare(
    pass: u64,
    asked: Asked,
    room: usize,
    output: usize,
    lists: &mut PartitionLists,
) -> Result<(Pass, Ready), Refusal>
    ensures prepared { of_lists (of_lists (of_asked (PassPreparedAs pass) asked.entry room output) lists.old result) lists.new }
    ensures same { SameLists lists.old lists.new }
{
    let pass = checks_before(
        pass,
        asked,
        lists.labels.len(),
        lists.masks.len(),
        lists.queue.len(),
        lists.tallies.len(),
        output,
    )?;
    let ready = divide(asked.grid(), asked.spans, room, lists)?;
    Ok((pass, ready))
}

// The same of a call that asks for no number: what it leaves is what the call leaves that asks for any pass.
pub fn prepare_lists(
    asked: Asked,
    room: usize,
    output: usize,
    lists: &mut PartitionLists,
) -> Result<Ready, Refusal>
    ensures prepared { (pass : ℕ) → IsPass pass
        → of_lists (of_lists (of_asked (PreparedAs pass) asked.entry room output) lists.old result) lists.new }
    ensures same { SameLists lists.old lists.new }
{
    check_whole(asked)?;
    check_lists(asked, &*lists, output)?;
    divide(asked.grid(), asked.spans, room, lists)
}

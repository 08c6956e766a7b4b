// The partition of a map by spans, `partition_by_spans` of areas.rs, with the refusals of the table of SPECIFICATION 4.

#![tactic(auto)]

pub mod checked;
pub mod labels;
pub mod lists;
pub mod scratch;

ghost use Rattle.areas.specs.Contract.{given, Ran};
ghost use Rattle.areas.specs.Divided.{Divided};
ghost use Rattle.areas.specs.Fit.{Fit};
ghost use Rattle.areas.specs.Lists.{of_lists, of_lengths, SameLists};

use assessments::assess_spans;
use checked::checks_before;
use grid_steps::grid::TerrainGrid;
use labels::label_regions;
use lists::PartitionLists;
use refusals::{Cause, Refusal};
use scratch::clear_scratch;

// The partition of lists that no check before it refuses. Where there are more pairs than rows, the answer is refusal 12.
fn divide(grid: TerrainGrid, spans: &[u64], lists: &mut PartitionLists) -> Result<usize, Refusal>
    requires { of_lengths (Fit grid.width grid.height grid.cells.now spans.now) lists.old }
    ensures divided { of_lists (of_lists (Divided grid.entry.width grid.entry.height grid.entry.cells.now spans.now) lists.old result) lists.new }
    ensures same { SameLists lists.old lists.new }
{
    let needed = grid.height * grid.width;
    let labels = &mut *lists.labels;
    let masks = &mut *lists.masks;
    let regions = label_regions(grid, spans, labels, masks, lists.queue);
    let rows = assess_spans(grid, &*masks, spans, &*labels, lists.tallies, lists.pairs);
    clear_scratch(masks, lists.queue, needed);
    match rows {
        Some(_) => Ok(regions),
        None => {
            lists.pairs.fill(0);
            Err(Refusal {
                cause: Cause::Pairs,
                place: 0,
            })
        }
    }
}

// Labels the regions of a map, counts the removed and separated edges of each span and lists its distinct pairs of regions.
pub fn partition(
    width: u64,
    height: u64,
    cells: &[u8],
    spans: &[u64],
    lists: &mut PartitionLists,
) -> Result<usize, Refusal>
    ensures ran { of_lists (Ran (of_lists (given width height cells.now spans.now) lists.old) result) lists.new }
    ensures same { SameLists lists.old lists.new }
{
    checks_before(
        width,
        height,
        cells,
        spans,
        lists.labels.len(),
        lists.masks.len(),
        lists.queue.len(),
        lists.tallies.len(),
    )?;
    let grid = TerrainGrid {
        width: width as usize,
        height: height as usize,
        cells,
    };
    divide(grid, spans, lists)
}

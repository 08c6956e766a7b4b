// The call that runs a pass, and the calls that are made of its parts. Each module holds one pass, one call, or what several of them share.

#![tactic(auto)]

pub mod games;
pub mod interior_pass;
pub mod junction_pass;
pub mod marks;
pub mod mouth_pass;
pub mod numbers;
pub mod own_records;
pub mod ranked;
pub mod records;
pub mod runs;
pub mod to_rest;
pub mod two_desks;

ghost use Rattle.refusals.specs.Answers.{answer_of};
ghost use Rattle.areas.specs.Lists.{of_lists, SameLists};
ghost use Rattle.call_partition.specs.Asking.{of_asked};
ghost use Rattle.topology.specs.Lent.{lends, leaves};
ghost use Rattle.topology.specs.Contract.{RanOver};

use areas::lists::PartitionLists;
use call_partition::asked::Asked;
use call_partition::prepare;
use context::Region;
use definitions::limits::{MAX_ENTRIES, NUMBERS_PER_BOUNDARY};
use marks::mark_asked;
use pass_lists::finish;
use records::fill_from_lists;
use refusals::Refusal;

// The call that runs a pass (SPECIFICATION 3): how many rows are kept, or the refusal. `jenwyllt_c` exports it.
pub fn topology_kept_boundaries(
    pass: u64,
    asked: Asked,
    lists: &mut PartitionLists,
    records: &mut [Region],
    output: &mut [u64],
) -> Result<usize, Refusal>
    ensures ran { RanOver pass (of_lists (of_asked lends asked.entry) lists.old records.old output.old) (answer_of result)
        (of_lists leaves lists.new records.new output.new) }
    ensures same { SameLists lists.old lists.new }
{
    let (pass, ready) = prepare(pass, asked, records.len(), output.len(), lists)?;
    let grid = asked.grid();
    fill_from_lists(records, ready.regions, grid, &*lists);
    let mut removed = [false; MAX_ENTRIES];
    mark_asked(pass, asked, ready, records, lists, &mut removed);
    let kept = finish(
        grid.height * grid.width,
        asked.boundaries.len() / NUMBERS_PER_BOUNDARY,
        asked.boundaries,
        &removed,
        lists.masks,
        lists.queue,
        output,
    );
    Ok(kept)
}

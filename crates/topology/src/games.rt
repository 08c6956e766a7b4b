// The call that plays on the kept graph of a map: a pass, the partition by what it keeps, and the game.
ghost use Rattle.checks.specs.Passes.{pass_number};
ghost use Rattle.call_answers.specs.Game.{game_answer_of};
ghost use Rattle.areas.specs.Lists.{of_lists, SameLists};
ghost use Rattle.call_partition.specs.Asking.{of_asked};
ghost use Rattle.topology.specs.Lent.{lends, leaves};
ghost use Rattle.topology.specs.Games.{Begun, RunsKept, RanKept, PlayedOver};

use crate::marks::mark_asked;
use crate::records::{fill_from_lists, renew_from_lists};
use areas::lists::PartitionLists;
use call_answers::game_answers::GameKept;
use call_partition::Ready;
use call_partition::asked::Asked;
use checks::passes::Pass;
use context::Region;
use definitions::limits::{MAX_ENTRIES, NUMBERS_PER_BOUNDARY};
use game_lists::checked::prepare_game;
use game_lists::kept::divide_kept;
use game_lists::play::play;
use pass_lists::finish;
use refusals::Refusal;
use rest_lists::kept::Standing;

// Behind the first partition: runs the pass, partitions again by what it keeps, and writes the rows. Gives how many rows are kept, and the regions and rows of
// pairs of the kept graph.
pub fn run_kept(
    pass: Pass,
    asked: Asked,
    ready: Ready,
    lists: &mut PartitionLists,
    records: &mut [Region],
    output: &mut [u64],
) -> Standing
    requires { (B : Begun) × RunsKept B (pass_number pass) (of_lists (of_asked lends asked) lists.old records.old output.old) ready.regions ready.rows }
    ensures kept { (B : Begun)
        → RunsKept B (pass_number pass) (of_lists (of_asked lends asked.entry) lists.old records.old output.old) ready.regions ready.rows
        → RanKept B (pass_number pass) (of_lists (of_asked lends asked.entry) lists.old records.old output.old) result
        (of_lists leaves lists.new records.new output.new) }
    ensures same { SameLists lists.old lists.new }
{
    let grid = asked.grid();
    let room = records.len();
    fill_from_lists(records, ready.regions, grid, &*lists);
    let mut removed = [false; MAX_ENTRIES];
    mark_asked(pass, asked, ready, records, lists, &mut removed);
    let graph = divide_kept(grid, asked.spans, &removed, ready.rows, room, lists);
    renew_from_lists(records, ready.regions, graph.regions, grid, &*lists);
    let kept = finish(
        grid.height * grid.width,
        asked.boundaries.len() / NUMBERS_PER_BOUNDARY,
        asked.boundaries,
        &removed,
        lists.masks,
        lists.queue,
        output,
    );
    Standing {
        kept,
        regions: graph.regions,
        rows: graph.rows,
    }
}

// The whole call: how many rows are kept and the regions of the kept graph, or the refusal.
pub fn topology_runner_and_guard(
    pass: u64,
    asked: Asked,
    goal: u64,
    lists: &mut PartitionLists,
    records: &mut [Region],
    output: &mut [u64],
    verdicts: &mut [u32],
) -> Result<GameKept, Refusal>
    ensures played { PlayedOver pass (of_lists (of_asked lends asked.entry) lists.old records.old output.old) goal verdicts.old (game_answer_of result)
        (of_lists leaves lists.new records.new output.new) verdicts.new }
    ensures same { SameLists lists.old lists.new }
{
    let (pass, ready) = prepare_game(
        pass,
        asked,
        records.len(),
        output.len(),
        verdicts.len(),
        lists,
    )?;
    let second = run_kept(pass, asked, ready, lists, records, output);
    // Kept: a name for the list; behind a read of `lists.pairs` itself a proof does not know that the list is as it was.
    let pairs = &mut *lists.pairs;
    play(
        second.kept,
        second.regions,
        goal,
        &*pairs,
        second.rows,
        verdicts,
    )
}

// The checks of the call before its first partition, in their order: 1 to 4, 16, and 5 to 10; and this partition.
ghost use Rattle.std.specs.Prelude.{◌≡◌, IfOk};
ghost use Rattle.checks.specs.Passes.{pass_number};
ghost use Rattle.refusals.specs.Refusals.{refusal_in};
ghost use Rattle.areas.specs.Lists.{of_lists, SameLists};
ghost use Rattle.call_partition.specs.Asking.{of_asked};
ghost use Rattle.game_lists.specs.Early.{game_early};
ghost use Rattle.game_lists.specs.Prepared.{GamePreparedAs};

use areas::lists::PartitionLists;
use call_partition::asked::Asked;
use call_partition::checked::{check_entries_and_room, check_sizes};
use call_partition::{Ready, divide};
use checks::passes::Pass;
use game_solver::VERDICTS_ROOM;
use refusals::{Cause, Refusal, ensure, no_fault};
use rest_lists::lists::lists_fault;

// Of the lists that are filled, only the lengths matter. The pass of the number that is asked for is given.
pub fn game_checks(
    pass: u64,
    asked: Asked,
    labels: usize,
    masks: usize,
    queue: usize,
    tallies: usize,
    output: usize,
    verdicts: usize,
) -> Result<Pass, Refusal>
    ensures named { IfOk result (λ p. pass_number p ≡ pass) }
    ensures refused { refusal_in result ≡ of_asked (game_early pass) asked.entry labels masks queue tallies output verdicts }
{
    let pass = check_sizes(pass, asked)?;
    no_fault(lists_fault(asked.spans, asked.boundaries), Cause::Lists)?;
    check_entries_and_room(asked, labels, masks, queue, tallies, output)?;
    ensure(VERDICTS_ROOM <= verdicts, Cause::Room)?;
    Ok(pass)
}

// All that comes before the records: `room` records, an output of length `output` and so many numbers for verdicts are lent.
pub fn prepare_game(
    pass: u64,
    asked: Asked,
    room: usize,
    output: usize,
    verdicts: usize,
    lists: &mut PartitionLists,
) -> Result<(Pass, Ready), Refusal>
    ensures prepared { of_lists (of_lists (of_asked (GamePreparedAs pass) asked.entry room output verdicts) lists.old result) lists.new }
    ensures same { SameLists lists.old lists.new }
{
    let pass = game_checks(
        pass,
        asked,
        lists.labels.len(),
        lists.masks.len(),
        lists.queue.len(),
        lists.tallies.len(),
        output,
        verdicts,
    )?;
    let ready = divide(asked.grid(), asked.spans, room, lists)?;
    Ok((pass, ready))
}

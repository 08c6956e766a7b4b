// Checks 1 to 10 of the table of SPECIFICATION 4, in its order.
ghost use Rattle.std.specs.Prelude.{◌≡◌, ◌&&◌, ◌≤◌, ◌*◌, ◌/◌, length, IfOk};
ghost use Rattle.definitions.specs.Limits.{max_side, numbers_per_span, numbers_per_boundary, numbers_per_anchor};
ghost use Rattle.definitions.specs.Refusals.{unless, partition_room, output_room};
ghost use Rattle.definitions.specs.Verdict.{refusal};
ghost use Rattle.refusals.specs.Refusals.{refusal_in};
ghost use Rattle.areas.specs.Lists.{of_lengths};
ghost use Rattle.call_partition.specs.Asking.{of_asked};
ghost use Rattle.checks.specs.Passes.{pass_number};
ghost use Rattle.call_partition.specs.Early.{is_whole_of, whole_refusal, sizes_refusal, entries_refusal, lists_refusal, early_refusal};

use crate::asked::Asked;
use areas::lists::PartitionLists;
use checks::anchors::anchors_fault;
use checks::boundaries::boundaries_fault;
use checks::cells::elevations_fault;
use checks::passes::Pass;
use checks::sizes::{
    are_whole, cells_fit, is_whole, output_has_room, partition_has_room, sides_fit,
};
use checks::spans::spans_fault;
use definitions::limits::{NUMBERS_PER_BOUNDARY, NUMBERS_PER_SPAN};
use refusals::{Cause, Refusal, ensure, no_fault};

// Check 3, of all three lists.
fn all_whole(spans: usize, boundaries: usize, anchors: usize) -> bool
    ensures { result ≡ (is_whole_of numbers_per_span spans && is_whole_of numbers_per_boundary boundaries && is_whole_of numbers_per_anchor anchors) }
{
    is_whole(NUMBERS_PER_SPAN, spans) && are_whole(boundaries, anchors)
}

// Checks 1 to 3.
pub fn check_whole(asked: Asked) -> Result<(), Refusal>
    ensures { refusal_in result ≡ of_asked whole_refusal asked.entry }
{
    ensure(sides_fit(asked.width, asked.height), Cause::Sides)?;
    let counted = cells_fit(asked.width, asked.height, asked.cells);
    ensure(counted, Cause::Cells)?;
    let whole = all_whole(
        asked.spans.len(),
        asked.boundaries.len(),
        asked.anchors.len(),
    );
    ensure(whole, Cause::Entries)
}

// Checks 1 to 4, and the pass of the number that is asked for.
pub fn check_sizes(pass: u64, asked: Asked) -> Result<Pass, Refusal>
    ensures refused { refusal_in result ≡ of_asked (sizes_refusal pass) asked.entry }
    ensures named { IfOk result (λ p. pass_number p ≡ pass) }
{
    check_whole(asked)?;
    Pass::try_from(pass)
}

// Checks 5 to 9.
pub fn check_entries(asked: Asked) -> Result<(), Refusal>
    requires { (asked.width ≤ max_side) × (asked.height ≤ max_side) }
    ensures { refusal_in result ≡ of_asked entries_refusal asked.entry }
{
    let Asked { width, height, .. } = asked;
    spans_fault(width, height, asked.spans)?;
    no_fault(
        boundaries_fault(width, height, asked.boundaries),
        Cause::Boundary,
    )?;
    no_fault(
        anchors_fault(width, height, asked.anchors),
        Cause::AnchorOutside,
    )?;
    no_fault(elevations_fault(asked.cells), Cause::Elevation)
}

// Check 10, of so many cells, spans and boundaries, and of lists and an output of these lengths.
pub fn check_room(
    cells: usize,
    spans: usize,
    boundaries: usize,
    labels: usize,
    masks: usize,
    queue: usize,
    tallies: usize,
    output: usize,
) -> Result<(), Refusal>
    ensures { refusal_in result ≡ refusal 10 (unless (partition_room cells spans labels masks queue tallies && output_room boundaries output)) }
{
    let partition = partition_has_room(cells, spans, labels, masks, queue, tallies);
    ensure(
        partition && output_has_room(boundaries, output),
        Cause::Room,
    )
}

// Checks 5 to 10, of cells as many as the sides say. Of the lists that are filled, only the lengths matter.
pub fn check_entries_and_room(
    asked: Asked,
    labels: usize,
    masks: usize,
    queue: usize,
    tallies: usize,
    output: usize,
) -> Result<(), Refusal>
    requires sides { (asked.width ≤ max_side) × (asked.height ≤ max_side) }
    requires counted { length asked.cells.now ≡ asked.width * asked.height }
    ensures { refusal_in result ≡ of_asked lists_refusal asked.entry labels masks queue tallies output }
{
    check_entries(asked)?;
    check_room(
        asked.cells.len(),
        asked.spans.len() / NUMBERS_PER_SPAN,
        asked.boundaries.len() / NUMBERS_PER_BOUNDARY,
        labels,
        masks,
        queue,
        tallies,
        output,
    )
}

// The same of lists that are lent together.
pub fn check_lists(asked: Asked, lists: &PartitionLists, output: usize) -> Result<(), Refusal>
    requires sides { (asked.width ≤ max_side) × (asked.height ≤ max_side) }
    requires counted { length asked.cells.now ≡ asked.width * asked.height }
    ensures { refusal_in result ≡ of_lengths (of_asked lists_refusal asked.entry) lists.now output }
{
    check_entries_and_room(
        asked,
        lists.labels.len(),
        lists.masks.len(),
        lists.queue.len(),
        lists.tallies.len(),
        output,
    )
}

// Checks 1 to 10, and the pass of the number that is asked for.
pub fn checks_before(
    pass: u64,
    asked: Asked,
    labels: usize,
    masks: usize,
    queue: usize,
    tallies: usize,
    output: usize,
) -> Result<Pass, Refusal>
    ensures refused { refusal_in result ≡ of_asked (early_refusal pass) asked.entry labels masks queue tallies output }
    ensures named { IfOk result (λ p. pass_number p ≡ pass) }
{
    let pass = check_sizes(pass, asked)?;
    check_entries_and_room(asked, labels, masks, queue, tallies, output)?;
    Ok(pass)
}

// The end of the call that gives the ranked junction list, over plain lists: 21, or the rows kept and the list, once the proposals are counted and listed apart
// from what was lent.

#![tactic(auto)]

ghost use Rattle.std.specs.Prelude.{◌≡◌, ◌*◌, ◌≤◌, length, [], ◌∷◌};
ghost use Rattle.definitions.specs.Lists.{overwrite};
ghost use Rattle.ranked_list.specs.RankedList.{numbers_per_ranked};
ghost use Rattle.ranked_rows.specs.Contract.{row_numbers};
ghost use Rattle.pass_lists.specs.Finished.{Finishes};
ghost use Rattle.ranked_finish.specs.Ends.{ranked_form, ranked_of, RankedFinished};

use areas::scratch::clear_scratch;
use definitions::limits::MAX_ENTRIES;
use pass_lists::finish;
use ranked_rows::RankedRow;
use refusals::{Cause, Refusal};

const NUMBERS_PER_RANKED: usize = 6;

// How many rows are kept, and how many proposals there are.
#[derive(Clone, Copy)]
pub struct RankedKept {
    pub kept: usize,
    pub proposals: usize,
}

// As C is given it: the number is 0, the value how many rows are kept and there are so many proposals, or they are a refusal's number and place, and 0.
#[repr(C)]
#[derive(Clone, Copy)]
pub struct RankedAnswer {
    pub number: u64,
    pub value: u64,
    pub proposals: u64,
}

// Kept: not the `Answer` of `refusals`, since C's struct of this call has a third number, how many proposals there are.
impl From<Result<RankedKept, Refusal>> for RankedAnswer {
    ghost from_gives = { λ given answer. ranked_form answer ≡ ranked_of given };

    fn from(given: Result<RankedKept, Refusal>) -> RankedAnswer {
        match given {
            Ok(ranked) => RankedAnswer {
                number: 0,
                value: ranked.kept as u64,
                proposals: ranked.proposals as u64,
            },
            Err(refusal) => RankedAnswer {
                number: refusal.cause.number(),
                value: refusal.place as u64,
                proposals: 0,
            },
        }
    }
}

// A row as the lent list has it: kind, boundary, two regions, whether it was taken, and by what rank it was refused.
fn numbers_of(row: RankedRow) -> [u32; NUMBERS_PER_RANKED]
    ensures { result ≡ row_numbers (row ∷ []) }
{
    [
        row.candidate.kind.number(),
        row.candidate.index,
        row.candidate.first,
        row.candidate.second,
        row.taken,
        row.refused_by,
    ]
}

// Writes rows in front of the list that was lent.
fn put_listed(listed: &[RankedRow], lent: &mut [u32])
    requires { numbers_per_ranked * length listed.now ≤ length lent.old }
    ensures { lent.new ≡ overwrite (row_numbers listed.now) lent.old }
{
    // Kept: with `zip` over `lent.chunks_exact_mut(NUMBERS_PER_RANKED)` no place would be counted, but of what `chunks_exact_mut` lends a proof knows nothing
    // behind the loop.
    for (k, &row) in listed.iter().enumerate() {
        let place = NUMBERS_PER_RANKED * k;
        lent[place..place + NUMBERS_PER_RANKED].copy_from_slice(&numbers_of(row));
    }
}

// The list holds the rows of the proposals. Where the lent one has room for them, they are written there, the rows of the `count` boundaries that are not
// removed go into the output, and masks and queue are cleared. Where it has not, 21: the lent list is zero, and so are masks and queue over the needed length.
// Kept: the lists one by one, as `finish` of `pass_lists` takes them: a struct of those that are written would be made for this one call, and taken apart again
// for that one.
pub fn finish_ranked(
    needed: usize,
    count: usize,
    boundaries: &[u64],
    removed: &[bool; MAX_ENTRIES],
    listed: &[RankedRow],
    masks: &mut [u16],
    queue: &mut [u32],
    output: &mut [u64],
    lent: &mut [u32],
) -> Result<RankedKept, Refusal>
    requires { Finishes needed count boundaries.now (length masks.old) (length queue.old) (length output.old) }
    ensures { RankedFinished needed count boundaries.now removed.now (row_numbers listed.now) (length listed.now)
        masks.old queue.old output.old lent.old
        (ranked_of result) masks.new queue.new output.new lent.new }
{
    let room = lent.len() / NUMBERS_PER_RANKED;
    if room < listed.len() {
        clear_scratch(masks, queue, needed);
        lent.fill(0);
        return Err(Refusal {
            cause: Cause::Ranked,
            place: 0,
        });
    }
    let kept = finish(needed, count, boundaries, removed, masks, queue, output);
    put_listed(listed, lent);
    Ok(RankedKept {
        kept,
        proposals: listed.len(),
    })
}

// The rows of the ranked junction list, from the proposals of pass 3 that the records of their regions allow, over plain lists.

#![tactic(auto)]

ghost use Rattle.std.specs.Prelude.{◌≡◌, ◌&&◌, ℕ, ◌≤◌, ◌<◌, length, map, take, drop};
ghost use Rattle.definitions.specs.Limits.{max_entries};
ghost use Rattle.definitions.specs.Scan.{any_below_lem};
ghost use Rattle.junction_proposals.specs.Bridges.{FirstIn};
ghost use Rattle.junction_proposals.specs.Rows.{max_proposals, form, row_at};
ghost use Rattle.junction_selection.specs.Ranks.{reserves_at, conflict_at, order_of, Rows};
ghost use Rattle.ranked_list.specs.RankedList.{flat_ranked};
ghost use Rattle.ranked_rows.specs.Contract.{listed_form, judged_row, row_numbers, blocks_at, row_of, BelowEntries, Listing, Allowed};
ghost use Rattle.ranked_rows.specs.Contract.{listed_from, allowed_list};

use junction_proposals::lists::JunctionLists;
use junction_proposals::proposals::{Candidate, MAX_PROPOSALS};
use junction_selection::found::FoundRows;
use junction_selection::ranks::rank_proposals;
use junction_selection::selection::{region_conflict, reserves};

// A row of the list, by the numbers that the lent list holds of it: what is proposed, 1 where it was taken, and the rank of the row that it was refused by.
#[derive(Clone, Copy)]
pub struct RankedRow {
    pub candidate: Candidate,
    pub taken: u32,
    pub refused_by: u32,
}

impl RankedRow {
    // That of a proposal: it was taken where no row refused it, and the rank is 0 then.
    fn of(candidate: Candidate, refused_by: Option<u16>) -> Self
        ensures { result ≡ judged_row candidate refused_by }
    {
        Self {
            candidate,
            taken: u32::from(refused_by.is_none()),
            refused_by: u32::from(refused_by.unwrap_or(0)),
        }
    }
}

// Whether some boundary is a port of both proposals.
fn share_port(lists: &JunctionLists, taken: Candidate, other: Candidate) -> bool
    requires { lists.now.count ≤ max_entries }
    ensures { result ≡ any_below_lem lists.now.count (λ j. reserves_at lists.now.full.now (form other) j
        && reserves_at lists.now.full.now (form taken) j) }
{
    (0..lists.count).any(|j| reserves(lists.full, other, j) & reserves(lists.full, taken, j))
}

// Whether a proposal that was taken keeps another from being taken.
fn conflicts(lists: &JunctionLists, taken: Candidate, other: Candidate) -> bool
    requires small { lists.now.count ≤ max_entries }
    requires boundaries { (taken.index < max_entries) × (other.index < max_entries) }
    ensures { result ≡ conflict_at lists.now.full.now lists.now.count (form taken) (form other) }
{
    let own = reserves(lists.full, other, taken.index as usize);
    let its = reserves(lists.full, taken, other.index as usize);
    let port = share_port(lists, taken, other);
    own | its | port | region_conflict(taken, other)
}

// Whether a row of the list was taken and conflicts with a proposal.
fn blocks(lists: &JunctionLists, row: RankedRow, candidate: Candidate) -> bool
    requires small { lists.now.count ≤ max_entries }
    requires boundaries { (row.candidate.index < max_entries) × (candidate.index < max_entries) }
    ensures { result ≡ blocks_at lists.now.full.now lists.now.count candidate row }
{
    row.taken == 1 && conflicts(lists, row.candidate, candidate)
}

// The rank of the first of the listed rows that was taken and conflicts with a proposal.
fn refused_by(lists: &JunctionLists, listed: &[RankedRow], candidate: Candidate) -> Option<u16>
    requires small { lists.now.count ≤ max_entries }
    requires few { length listed.now ≤ max_proposals }
    requires boundaries { BelowEntries listed.now × (candidate.index < max_entries) }
    ensures first { FirstIn (λ r. blocks_at lists.now.full.now lists.now.count candidate (row_of listed.now r)) 0 (length listed.now) result }
{
    listed
        .iter()
        .position(|&row| blocks(lists, row, candidate))
        .map(|rank| rank as u16)
}

// Lists the rows that the order names, by rank.
fn list_in_order(found: &FoundRows, order: &[u32], listed: &mut [RankedRow])
    requires listing { Listing found.now.lists.now.count (length order.now) (length listed.old) }
    requires rows { Rows order.now (length order.now) (length found.now.rows.now) }
    requires below { (k : ℕ) → k < length found.now.rows.now → (row_at found.now.rows.now k).index < found.now.lists.now.count }
    ensures list { map listed_form (take (length order.now) listed.new) ≡ listed_from found.now.lists.now.full.now found.now.lists.now.count
        (order_of found.now.rows.now order.now (length order.now)) }
    ensures numbers { row_numbers (take (length order.now) listed.new) ≡ flat_ranked (listed_from found.now.lists.now.full.now found.now.lists.now.count
        (order_of found.now.rows.now order.now (length order.now))) }
    ensures rest { drop (length order.now) listed.new ≡ drop (length order.now) listed.old }
{
    for (k, &p) in order.iter().enumerate() {
        let candidate = found.rows[p as usize];
        let refused_by = refused_by(found.lists, &listed[..k], candidate);
        listed[k] = RankedRow::of(candidate, refused_by);
    }
}

// Lists the rows that are allowed, by rank, and says how many there are.
pub fn list_ranked(found: &FoundRows, verdicts: &[bool], listed: &mut [RankedRow]) -> usize
    requires { Allowed found.now.lists.now.boundaries.now found.now.rows.now verdicts.now (length listed.old) found.now.lists.now.count }
    ensures within { result ≤ length listed.new }
    ensures list { map listed_form (take result listed.new) ≡ allowed_list found.now.lists.now.full.now found.now.lists.now.count
        found.now.lists.now.boundaries.now found.now.rows.now verdicts.now (length found.now.rows.now) }
    ensures numbers { row_numbers (take result listed.new) ≡ flat_ranked (allowed_list found.now.lists.now.full.now found.now.lists.now.count
        found.now.lists.now.boundaries.now found.now.rows.now verdicts.now (length found.now.rows.now)) }
    ensures rest { drop result listed.new ≡ drop result listed.old }
{
    let mut order = [0u32; MAX_PROPOSALS];
    let m = rank_proposals(found, verdicts, &mut order);
    list_in_order(found, &order[..m], listed);
    m
}

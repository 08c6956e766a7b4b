// Pass 3 over the lent slice of region records.
ghost use Rattle.std.specs.Prelude.{◌≡◌, ◌≤◌, length};
ghost use Rattle.definitions.specs.Context.{Context};
ghost use Rattle.junction_proposals.specs.Rows.{max_proposals};
ghost use Rattle.topology.specs.Proposals.{Allows, Allowed, PassesIn, Proposed, Unmarked, Removes};

use context::Region;
use definitions::limits::MAX_ENTRIES;
use junction_proposals::lists::JunctionLists;
use junction_proposals::proposals::{Candidate, Kind, MAX_PROPOSALS, find_proposals};
use junction_regions::{first_place, is_allowed, second_place};
use junction_selection::found::FoundRows;
use junction_selection::selection::select_proposals;

// What stands where no row was put.
pub(crate) const NO_ROW: Candidate = Candidate {
    index: 0,
    kind: Kind::UNION,
    first: 0,
    second: 0,
};

// Which of these proposals of pass 3 the records of their regions allow.
pub fn allow_proposals(
    records: &[Region],
    boundaries: &[u64],
    marks: &[u16],
    rows: &[Candidate],
    allowed: &mut [bool; MAX_PROPOSALS],
)
    requires rows_fit { (C : Context) × Allows C records.now boundaries.now marks.now rows.now (length rows.now) }
    requires allowed_long { length allowed.old ≡ max_proposals }
    ensures { (C : Context) →
        Allows C records.now boundaries.now marks.now rows.now (length rows.now) →
        Allowed C rows.now (length rows.now) allowed.new }
{
    // Kept: `zip` of `allowed.iter_mut()` and the rows would name no index, but of what `zip` lends a proof knows nothing behind the loop; `enumerate` over
    // `iter_mut` would name one all the same, for the row.
    for (k, &row) in rows.iter().enumerate() {
        let first = records[first_place(row)];
        let second = records[second_place(row)];
        allowed[k] = is_allowed(boundaries, marks, row, first, second);
    }
}

// The proposals of pass 3, as rows, and which of them the records of their regions allow; gives how many rows there are.
pub fn allowed_proposals(
    records: &[Region],
    lists: &JunctionLists,
    rows: &mut [Candidate],
    allowed: &mut [bool; MAX_PROPOSALS],
) -> usize
    requires lists_show { (C : Context) × PassesIn C records.now lists.now }
    requires room { (max_proposals ≤ length rows.old) × (length allowed.old ≡ max_proposals) }
    ensures { (C : Context) → PassesIn C records.now lists.now → Proposed C lists.now.count lists.now.regions rows.new allowed.new result }
{
    let n = find_proposals(lists, rows);
    allow_proposals(records, lists.boundaries, lists.marks, &rows[..n], allowed);
    n
}

// Pass 3: marks the boundaries that it removes. No boundary is marked before. Never put into its caller, as pass 1.
#[inline(never)]
pub fn remove_junction_boundaries(
    records: &[Region],
    lists: &JunctionLists,
    removed: &mut [bool; MAX_ENTRIES],
)
    requires lists_show { (C : Context) × PassesIn C records.now lists.now }
    requires none_marked { Unmarked removed.old lists.now.count }
    ensures { (C : Context) → PassesIn C records.now lists.now → Removes C lists.now.count removed.new }
{
    let mut rows = [NO_ROW; MAX_PROPOSALS];
    let mut allowed = [false; MAX_PROPOSALS];
    let n = allowed_proposals(records, lists, &mut rows, &mut allowed);
    let found = FoundRows {
        lists,
        rows: &rows[..n],
    };
    select_proposals(&found, &allowed, removed);
}

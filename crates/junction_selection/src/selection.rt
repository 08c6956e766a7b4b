// `select_proposals`: a proposal is taken unless it conflicts with one taken before.
ghost use Rattle.std.specs.Prelude.{◌≡◌, false, ◌&&◌, ◌||◌, cond, eqb, ℕ, ◌+◌, ◌≤◌, ◌<◌};
ghost use Rattle.std.specs.Prelude.{List, [], ◌∷◌, ◌++◌, length, get_or};
ghost use Rattle.definitions.specs.Limits.{max_entries};
ghost use Rattle.definitions.specs.Scan.{any, any_below_lem};
ghost use Rattle.definitions.specs.Junctions.{Proposal, region_conflict};
ghost use Rattle.junction_proposals.specs.Rows.{form, row_at};
ghost use Rattle.junction_selection.specs.Ranks.{order_of, reserves_at, conflict_at, selected_of, Rows};
ghost use Rattle.junction_selection.specs.Taken.{Within, Selectable, Selecting, Standing, Judged, removed_at};

use crate::found::FoundRows;
use crate::ranks::rank_proposals;
use context::pairs::Pair;
use definitions::limits::MAX_ENTRIES;
use junction_proposals::lists::JunctionLists;
use junction_proposals::ports::names_region;
use junction_proposals::proposals::{Candidate, MAX_PROPOSALS};

// Whether a row reserves boundary j as a port.
pub fn reserves(full: &[Option<Pair>; MAX_ENTRIES], row: Candidate, j: usize) -> bool
    requires { j < max_entries }
    ensures { result ≡ reserves_at full.now (form row) j }
{
    let union = row.kind.is_union();
    let first = names_region(full[j], row.first);
    let second = names_region(full[j], row.second);
    (first | (union & second)) & !(union & (j == row.index as usize))
}

// Whether a taken row keeps another from being taken by its regions: two bridges may share their exterior, and nothing else.
pub fn region_conflict(taken: Candidate, other: Candidate) -> bool
    ensures { result ≡ region_conflict (form taken).kind (form other).kind (form taken) (form other) }
{
    let pockets = taken.first == other.first;
    let outward = taken.first == other.second;
    let inward = taken.second == other.first;
    let exteriors = taken.second == other.second;
    if taken.kind.is_union() | other.kind.is_union() {
        return (pockets | inward) | (outward | exteriors);
    }
    pockets | outward | inward
}

// Whether the regions of row p are taken by one of the taken rows.
fn region_taken(rows: &[Candidate], taken: &[u32], p: usize) -> bool
    requires row_within { p < length rows.now }
    requires taken_rows { (k : ℕ) → k < length taken.now → get_or taken.now k 0 < length rows.now }
    ensures { result ≡ any (λ q. region_conflict q.kind (row_at rows.now p).kind q (row_at rows.now p))
        (order_of rows.now taken.now (length taken.now)) }
{
    taken
        .iter()
        .any(|&q| region_conflict(rows[q as usize], rows[p]))
}

// Marks the ports of a row.
fn reserve_ports(lists: &JunctionLists, reserved: &mut [bool; MAX_ENTRIES], row: Candidate)
    requires { lists.now.count ≤ max_entries }
    ensures { (j : ℕ) →
        j < lists.now.count →
        get_or reserved.new j false ≡ (get_or reserved.old j false || reserves_at lists.now.full.now (form row) j) }
{
    for (j, mark) in reserved[..lists.count].iter_mut().enumerate() {
        *mark |= reserves(lists.full, row, j);
    }
}

// What is selected so far: the boundaries that are removed, those that are reserved as ports, and the rows taken, of which there are `count`.
#[derive(Drop)]
struct Selection<'a> {
    removed: &'a mut [bool],
    reserved: [bool; MAX_ENTRIES],
    taken: [u32; MAX_PROPOSALS],
    count: usize,
}

impl Selection<'_> {
    // Whether a port of row p is removed or reserved.
    fn port_taken(&self, found: &FoundRows, p: usize) -> bool
        requires { Within found.now.rows.now self.now.removed.now self.now.reserved found.now.lists.now.count p }
        ensures { result ≡ any_below_lem found.now.lists.now.count (λ j. reserves_at found.now.lists.now.full.now (row_at found.now.rows.now p) j
            && (get_or self.now.removed.now j false || get_or self.now.reserved j false)) }
    {
        let row = found.rows[p];
        (0..found.lists.count).any(|j| {
            (self.removed[j] | self.reserved[j]) & reserves(found.lists.full, row, j)
        })
    }

    // Whether a taken row conflicts with row p.
    fn refuses(&self, found: &FoundRows, p: usize) -> bool
        requires selecting { Selecting found.now.rows.now self.now.taken self.now.removed.now self.now.reserved found.now.lists.now.count }
        requires places { (self.now.count ≤ length found.now.rows.now) × (p < length found.now.rows.now) }
        requires listed { Rows self.now.taken self.now.count (length found.now.rows.now) }
        ensures { (chosen : List Proposal) →
            Standing found.now.lists.now.full.now found.now.rows.now self.now.taken self.now.removed.now self.now.reserved
            found.now.lists.now.count self.now.count chosen →
            result ≡ any (λ q. conflict_at found.now.lists.now.full.now found.now.lists.now.count q (row_at found.now.rows.now p)) chosen }
    {
        let own = self.reserved[found.rows[p].index as usize];
        let ports = self.port_taken(found, p);
        ports | own | region_taken(found.rows, &self.taken[..self.count], p)
    }

    // Takes row p, unless a taken row conflicts with it.
    fn take_if_free(&mut self, found: &FoundRows, p: usize)
        requires selecting { Selecting found.now.rows.now self.old.taken self.old.removed.now self.old.reserved found.now.lists.now.count }
        requires places { (self.old.count < length found.now.rows.now) × (p < length found.now.rows.now) }
        requires listed { Rows self.old.taken self.old.count (length found.now.rows.now) }
        ensures same_removed { self.new.removed.ghost_name ≡ self.old.removed.ghost_name }
        ensures selecting { Selecting found.now.rows.now self.new.taken self.new.removed.now self.new.reserved found.now.lists.now.count }
        ensures standing { (chosen : List Proposal) →
            Standing found.now.lists.now.full.now found.now.rows.now self.old.taken self.old.removed.now self.old.reserved
            found.now.lists.now.count self.old.count chosen →
            Standing found.now.lists.now.full.now found.now.rows.now
            self.new.taken self.new.removed.now self.new.reserved found.now.lists.now.count self.new.count
            (cond (any (λ q. conflict_at found.now.lists.now.full.now found.now.lists.now.count q (row_at found.now.rows.now p)) chosen) chosen
            (chosen ++ (row_at found.now.rows.now p ∷ []))) }
        ensures bound { self.new.count ≤ self.old.count + 1 }
    {
        if self.refuses(found, p) {
            return;
        }
        let row = found.rows[p];
        self.removed[row.index as usize] = true;
        reserve_ports(found.lists, &mut self.reserved, row);
        self.taken[self.count] = p as u32;
        self.count += 1;
    }
}

// Takes the rows that the order names, one after the other, where they are free, and marks their boundaries.
fn select_ranked(found: &FoundRows, order: &[u32], removed: &mut [bool])
    requires selectable { Selectable found.now.rows.now removed.old found.now.lists.now.count }
    requires few { length order.now ≤ length found.now.rows.now }
    requires listed { Rows order.now (length order.now) (length found.now.rows.now) }
    requires removed_clear { (j : ℕ) → j < found.now.lists.now.count → get_or removed.old j false ≡ false }
    ensures { (j : ℕ) →
        j < found.now.lists.now.count →
        get_or removed.new j false
        ≡ any (λ q. eqb j q.index) (selected_of found.now.lists.now.full.now found.now.rows.now order.now found.now.lists.now.count (length order.now)) }
{
    let mut selection = Selection {
        removed,
        reserved: [false; MAX_ENTRIES],
        taken: [0; MAX_PROPOSALS],
        count: 0,
    };
    for &p in order {
        selection.take_if_free(found, p as usize);
    }
}

// Marks the boundaries of the proposals that the greedy selection takes, of the rows that are allowed.
pub fn select_proposals(found: &FoundRows, verdicts: &[bool], removed: &mut [bool])
    requires { Judged found.now.lists.now.boundaries.now found.now.rows.now verdicts.now removed.old found.now.lists.now.count }
    ensures { (j : ℕ) →
        j < found.now.lists.now.count →
        get_or removed.new j false
        ≡ removed_at found.now.lists.now.boundaries.now found.now.lists.now.full.now found.now.rows.now verdicts.now
        found.now.lists.now.count (length found.now.rows.now) j }
{
    let mut order = [0u32; MAX_PROPOSALS];
    let m = rank_proposals(found, verdicts, &mut order);
    select_ranked(found, &order[..m], removed);
}

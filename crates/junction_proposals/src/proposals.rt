// The proposals of the pass before records are looked at: unions by boundary, then bridges by pocket.
ghost use Rattle.std.specs.Prelude.{◌≡◌, ◌++◌, ℕ, suc, ◌+◌, ◌≤◌, ◌<◌, length, eqb};
ghost use Rattle.definitions.specs.Scan.{collect, to_list, filter};
ghost use Rattle.definitions.specs.Context.{Context};
ghost use Rattle.definitions.specs.Junctions.{proposals};
ghost use Rattle.junction_proposals.specs.Lent.{LentIn, ShowsIn};
ghost use Rattle.junction_proposals.specs.Rows.{kind_of, found_form, max_proposals, row_at, rows_of, union_in, bridge_in, is_allowed, RowFits};

use crate::bridges::bridge_of;
use crate::lists::JunctionLists;
use crate::unions::is_union;
use definitions::limits::MAX_ENTRIES;

// A union for each boundary, and 170 bridges: a pocket has three full pairs, and a full pair names two regions.
pub const MAX_PROPOSALS: usize = MAX_ENTRIES + MAX_ENTRIES * 2 / 3;

// Whether the boundary between two regions would go, or one of two that lead from a pocket to one region; by its number in the ranked list: 0 is a union, every
// other a bridge. Unions go before bridges. A number, and no enum of the two that are proposed: the choice among rows is promised for rows of any numbers.
#[derive(Clone, Copy, PartialEq, Eq, PartialOrd, Ord)]
pub struct Kind(pub u32);

impl Kind {
    pub const UNION: Kind = Kind(0);

    pub const BRIDGE: Kind = Kind(1);

    pub fn is_union(self) -> bool
        ensures { result ≡ eqb (kind_of self) 0 }
    {
        self == Kind::UNION
    }

    pub fn number(self) -> u32
        ensures { result ≡ kind_of self }
    {
        self.0
    }
}

// What is proposed: the boundary that would go, and the two regions of a union, or the pocket and the region beyond.
#[derive(Clone, Copy)]
pub struct Candidate {
    pub index: u32,
    pub kind: Kind,
    pub first: u32,
    pub second: u32,
}

// The union at boundary i, if it is a full pair and has the shape of one.
fn union_row(lists: &JunctionLists, i: usize) -> Option<Candidate>
    requires lent { LentIn lists.now }
    requires index_within { i < lists.now.count }
    ensures { found_form result ≡ union_in lists.now i }
{
    let union = lists.full[i]?;
    is_union(lists, i).then_some(Candidate {
        index: i as u32,
        kind: Kind::UNION,
        first: union.lo,
        second: union.hi,
    })
}

// The bridge of region r, if there is one.
fn bridge_row(lists: &JunctionLists, r: u32) -> Option<Candidate>
    requires lent { LentIn lists.now }
    requires r_named { (1 ≤ r) × (r ≤ lists.now.regions) }
    ensures { found_form result ≡ bridge_in lists.now r }
{
    let bridge = bridge_of(lists, r)?;
    Some(Candidate {
        index: bridge.index as u32,
        kind: Kind::BRIDGE,
        first: r,
        second: bridge.exterior,
    })
}

// The rows found so far, in front of the list that was lent for them.
#[derive(Drop)]
struct RowList<'a> {
    rows: &'a mut [Candidate],
    count: usize,
}

impl RowList<'_> {
    // Puts in what was found, if there is something.
    fn add(&mut self, found: Option<Candidate>)
        requires room { self.old.count + length (to_list (found_form found)) ≤ length self.old.rows.now }
        ensures same { self.new.rows.ghost_name ≡ self.old.rows.ghost_name }
        ensures long { length self.new.rows.now ≡ length self.old.rows.now }
        ensures rows { rows_of self.new.rows.now self.new.count ≡ rows_of self.old.rows.now self.old.count ++ to_list (found_form found) }
        ensures count { self.new.count ≡ self.old.count + length (to_list (found_form found)) }
    {
        if let Some(row) = found {
            self.rows[self.count] = row;
            self.count += 1;
        }
    }
}

// Adds all unions to the list, which has no rows yet.
fn find_unions(lists: &JunctionLists, list: &mut RowList)
    requires lent { LentIn lists.now }
    requires none_yet { list.old.count ≡ 0 }
    requires rows_room { max_proposals ≤ length list.old.rows.now }
    ensures same { list.new.rows.ghost_name ≡ list.old.rows.ghost_name }
    ensures long { length list.new.rows.now ≡ length list.old.rows.now }
    ensures rows { rows_of list.new.rows.now list.new.count ≡ collect lists.now.count (union_in lists.now) }
    ensures bound { list.new.count ≤ lists.now.count }
{
    for i in 0..lists.count {
        list.add(union_row(lists, i));
    }
}

// Adds all bridges to a list of unions.
fn find_bridges(lists: &JunctionLists, list: &mut RowList)
    requires lent { LentIn lists.now }
    requires unions { list.old.count ≤ lists.now.count }
    requires rows_room { max_proposals ≤ length list.old.rows.now }
    ensures same { list.new.rows.ghost_name ≡ list.old.rows.ghost_name }
    ensures rows { rows_of list.new.rows.now list.new.count ≡ rows_of list.old.rows.now list.old.count
        ++ collect lists.now.regions (λ k. bridge_in lists.now (suc k)) }
    ensures bound { list.new.count ≤ max_proposals }
{
    for k in 0..lists.regions {
        list.add(bridge_row(lists, (k + 1) as u32));
    }
}

// All rows: of them those that the records of their regions allow are the proposals.
pub fn find_proposals(lists: &JunctionLists, rows: &mut [Candidate]) -> usize
    requires lent { LentIn lists.now }
    requires rows_room { max_proposals ≤ length rows.old }
    ensures bound { result ≤ max_proposals }
    ensures rows_fit { (k : ℕ) → k < result → RowFits lists.now.count lists.now.regions (row_at rows.new k) }
    ensures allowed { (C : Context) → ShowsIn lists.now C → filter (is_allowed C) (rows_of rows.new result) ≡ proposals C }
{
    let mut list = RowList { rows, count: 0 };
    find_unions(lists, &mut list);
    find_bridges(lists, &mut list);
    list.count
}

// Unions of two regions, before their records are looked at.
ghost use Rattle.std.specs.Prelude.{◌≡◌, ◌+◌, ◌-◌, ◌≤◌, ◌<◌, length, get_or, ltb, leb, Some};
ghost use Rattle.definitions.specs.Scan.{count_below};
ghost use Rattle.definitions.specs.Junctions.{exterior_of};
ghost use Rattle.context.specs.Rows.{pair_form};
ghost use Rattle.junction_proposals.specs.Lent.{LentBoundaries, LentIn};
ghost use Rattle.junction_proposals.specs.Ports.{pair_of, incidents_of};
ghost use Rattle.junction_proposals.specs.Unions.{with_exterior, with_incident, leads_anew, ports_pass, shape_at, is_union_at};

use crate::distances::port_passes;
use crate::lists::JunctionLists;
use crate::ports::{Divider, find_incidents, ports_fit};
use context::pairs::Pair;
use context::region_marks::is_anchored;
use definitions::limits::MAX_ENTRIES;
use geometry::boundaries::has_ramp;

// The exteriors found: none, one, two, or more.
#[derive(Clone, Copy)]
enum Exteriors {
    None,
    One(u32),
    Two(u32, u32),
    Many,
}

impl Exteriors {
    fn with(self, e: u32) -> Exteriors
        ensures { result ≡ with_exterior self e }
    {
        match self {
            Exteriors::None => Exteriors::One(e),
            Exteriors::One(first) if first != e => Exteriors::Two(first, e),
            Exteriors::Two(first, second) if (first != e) & (second != e) => Exteriors::Many,
            found => found,
        }
    }

    // Looks at boundary j too, which names a region of the union and is a port if it is not the union's own.
    fn with_incident(
        self,
        full: &[Option<Pair>; MAX_ENTRIES],
        divider: &Divider,
        j: u8,
    ) -> Exteriors
        ensures { result ≡ with_incident full.now divider.now.index (pair_form divider.now.union) self j }
    {
        let pair = full[j as usize];
        match pair {
            Some(pair) if j as usize != divider.index => self.with(exterior_of(
                divider.union,
                pair,
            )),
            _ => self,
        }
    }
}

// The side of the full pair that lies outside the union.
fn exterior_of(union: Pair, pair: Pair) -> u32
    ensures { result ≡ exterior_of (pair_form union) (pair_form pair) }
{
    if union.contains(pair.lo) {
        pair.hi
    } else {
        pair.lo
    }
}

// Whether the ports lead to three regions or more. All ports are among the union's incidents.
fn has_three_exteriors(lists: &JunctionLists, divider: &Divider) -> bool
    requires incidents { divider.now.incidents.now ≡ incidents_of lists.now.full.now lists.now.count (pair_form divider.now.union) }
    ensures { result ≡ leb 3 (count_below lists.now.count (leads_anew lists.now.full.now divider.now.index
        (pair_form divider.now.union))) }
{
    let exteriors = divider.incidents.iter().fold(
        Exteriors::None,
        |found, &j| found.with_incident(lists.full, divider, j),
    );
    matches!(exteriors, Exteriors::Many)
}

// Whether every port passes. All ports are among the union's incidents.
fn ports_pass(lists: &JunctionLists, divider: &Divider, one: bool) -> bool
    requires boundaries_lent { LentBoundaries lists.now.boundaries.now lists.now.count }
    requires index_within { divider.now.index < lists.now.count }
    requires incidents { divider.now.incidents.now ≡ incidents_of lists.now.full.now lists.now.count (pair_form divider.now.union) }
    ensures { result ≡ ports_pass lists.now.boundaries.now lists.now.full.now lists.now.count divider.now.index
        (pair_form divider.now.union) one }
{
    divider.incidents.iter().all(|&j| {
        (j as usize == divider.index)
            | port_passes(lists.boundaries, one, divider.index, j as usize)
    })
}

// Whether the union's regions have too few incidents for three ports: a port is an incident of one of the two, and the boundary between them is one of both.
fn has_few_incidents(counts: &[u32], union: Pair) -> bool
    requires lo_named { (1 ≤ union.lo) × (union.lo ≤ length counts.now) }
    requires hi_named { (1 ≤ union.hi) × (union.hi ≤ length counts.now) }
    ensures { result ≡ ltb (get_or counts.now (union.lo - 1) 0 + get_or counts.now (union.hi - 1) 0) 5 }
{
    let first = counts[union.lo as usize - 1] as usize;
    let second = counts[union.hi as usize - 1] as usize;
    first + second < 5
}

// Whether the regions of the full pair of boundary `index` and their ports have the shape of a union.
fn has_union_shape(lists: &JunctionLists, index: usize, union: Pair) -> bool
    requires lent { LentIn lists.now }
    requires index_within { index < lists.now.count }
    requires union_full { pair_of lists.now.full.now index ≡ Some (pair_form union) }
    ensures { result ≡ shape_at lists.now.boundaries.now lists.now.full.now lists.now.count index (pair_form union)
        lists.now.counts.now lists.now.marks.now }
{
    if has_ramp(lists.boundaries, index) {
        return false;
    }
    let lower = is_anchored(lists.marks, union.lo);
    let upper = is_anchored(lists.marks, union.hi);
    if lower & upper {
        return false;
    }
    // Tested first: the walk below it goes over all boundaries.
    if has_few_incidents(lists.counts, union) {
        return false;
    }
    let mut listed = [0u8; MAX_ENTRIES];
    let n = find_incidents(lists.full, lists.count, union, &mut listed);
    let divider = Divider {
        index,
        union,
        incidents: &listed[..n],
    };
    ports_fit(lists, &divider)
        && has_three_exteriors(lists, &divider)
        && ports_pass(lists, &divider, lower != upper)
}

// Whether boundary `index` is a full pair whose regions and their ports have the shape of a union.
pub fn is_union(lists: &JunctionLists, index: usize) -> bool
    requires lent { LentIn lists.now }
    requires index_within { index < lists.now.count }
    ensures { result ≡ is_union_at lists.now.boundaries.now lists.now.full.now lists.now.counts.now lists.now.marks.now
        lists.now.count index }
{
    match lists.full[index] {
        Some(union) => has_union_shape(lists, index, union),
        None => false,
    }
}

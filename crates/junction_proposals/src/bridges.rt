// Bridges of a pocket, before its record is looked at.
ghost use Rattle.std.specs.Prelude.{◌≡◌, ◌≤◌, length, MatchOption};
ghost use Rattle.junction_proposals.specs.Lent.{LentBoundaries, LentIn};
ghost use Rattle.junction_proposals.specs.Bridges.{bridge_form, is_pocket_port, is_bridge_at, NoneFrom, FirstPort};
ghost use Rattle.junction_proposals.specs.Bridges.{Measured, PortIn, shared_by, near_port, picked_port, port_of_three};

use crate::distances::is_near_port;
use crate::lists::JunctionLists;
use crate::ports::names_region;
use context::region_marks::is_anchored;
use geometry::boundaries::has_ramp;
use geometry::widths::is_twice_as_wide;

// A port of a pocket: the boundary, and the region beyond it. A bridge is the port whose boundary would go (`bridge_form` of specs/Bridges.antt).
#[derive(Clone, Copy)]
pub struct Port {
    pub index: usize,
    pub exterior: u32,
}

// Whether ports i and k of a pocket lead to one region, and t to another, which is anchored.
fn is_shared(marks: &[u16], i: Port, k: Port, t: Port) -> bool
    requires { (1 ≤ t.exterior) × (t.exterior ≤ length marks.now) }
    ensures { result ≡ shared_by marks.now i k t }
{
    (i.exterior == k.exterior) & (t.exterior != i.exterior) & is_anchored(marks, t.exterior)
}

// Port i, if all three ports are near.
fn bridge_if_near(boundaries: &[u64], i: Port, k: Port, t: Port) -> Option<Port>
    requires { Measured boundaries.now i × Measured boundaries.now k × Measured boundaries.now t }
    ensures { result ≡ near_port boundaries.now i k t }
{
    let own = is_near_port(boundaries, i.index, i.index);
    let other = is_near_port(boundaries, i.index, k.index);
    let third = is_near_port(boundaries, i.index, t.index);
    (own & other & third).then_some(i)
}

// Of the two ports that lead to one region, i before k, the one that is twice as wide as the other.
fn pick_bridge(boundaries: &[u64], i: Port, k: Port, t: Port) -> Option<Port>
    requires { Measured boundaries.now i × Measured boundaries.now k × Measured boundaries.now t }
    ensures { result ≡ picked_port boundaries.now i k t }
{
    if is_twice_as_wide(boundaries, i.index, k.index) {
        return bridge_if_near(boundaries, i, k, t);
    }
    if is_twice_as_wide(boundaries, k.index, i.index) {
        return bridge_if_near(boundaries, k, i, t);
    }
    None
}

// The bridge of a pocket whose ports are i, j and k, of which two share their exterior.
fn bridge_of_three(boundaries: &[u64], marks: &[u16], i: Port, j: Port, k: Port) -> Option<Port>
    requires i_is_port { PortIn boundaries.now marks.now i }
    requires j_is_port { PortIn boundaries.now marks.now j }
    requires k_is_port { PortIn boundaries.now marks.now k }
    ensures { result ≡ port_of_three boundaries.now marks.now i j k }
{
    if is_shared(marks, i, j, k) {
        return pick_bridge(boundaries, i, j, k);
    }
    if is_shared(marks, i, k, j) {
        return pick_bridge(boundaries, i, k, j);
    }
    if is_shared(marks, j, k, i) {
        return pick_bridge(boundaries, j, k, i);
    }
    None
}

// The first port of pocket r from number `from` on: a full pair without ramp that names the pocket.
fn next_port(lists: &JunctionLists, r: u32, from: usize) -> Option<Port>
    requires { LentBoundaries lists.now.boundaries.now lists.now.count }
    ensures first { MatchOption result
        (NoneFrom (is_pocket_port lists.now.full.now r lists.now.boundaries.now) «from» lists.now.count)
        (FirstPort lists.now.full.now r lists.now.boundaries.now «from» lists.now.count) }
{
    let index = (from..lists.count).find(|&j| names_region(lists.full[j], r)
        && !has_ramp(lists.boundaries, j))?;
    let pair = lists.full[index]?;
    Some(Port {
        index,
        exterior: pair.other(r),
    })
}

// The bridge of region r: it is not anchored, and its incidents are three full pairs without ramps.
pub fn bridge_of(lists: &JunctionLists, r: u32) -> Option<Port>
    requires lent { LentIn lists.now }
    requires r_named { (1 ≤ r) × (r ≤ lists.now.regions) }
    ensures { bridge_form r result ≡ is_bridge_at lists.now.boundaries.now lists.now.full.now
        lists.now.marks.now r lists.now.counts.now lists.now.count }
{
    if lists.counts[r as usize - 1] != 3 {
        return None;
    }
    if is_anchored(lists.marks, r) {
        return None;
    }
    let i = next_port(lists, r, 0)?;
    let j = next_port(lists, r, i.index + 1)?;
    let k = next_port(lists, r, j.index + 1)?;
    if next_port(lists, r, k.index + 1).is_some() {
        return None;
    }
    bridge_of_three(lists.boundaries, lists.marks, i, j, k)
}

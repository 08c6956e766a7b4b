// The ports of the two regions of a union.
ghost use Rattle.std.specs.Prelude.{◌≡◌, ◌≤◌, ◌<◌, true, length};
ghost use Rattle.definitions.specs.Limits.{max_entries};
ghost use Rattle.definitions.specs.Grid.{contains};
ghost use Rattle.definitions.specs.Context.{holds};
ghost use Rattle.definitions.specs.Junctions.{fits_union};
ghost use Rattle.context.specs.Rows.{pair_form, full_pair_of};
ghost use Rattle.junction_proposals.specs.Ports.{Listed, incidents_of, walk_fits};

use crate::lists::JunctionLists;
use context::pairs::Pair;
use definitions::limits::MAX_ENTRIES;

// A boundary that may go, the pair of regions of which it would make a union, and the boundaries whose full pair names one of the two.
#[derive(Clone, Copy)]
pub struct Divider<'a> {
    pub index: usize,
    pub union: Pair,
    pub incidents: &'a [u8],
}

// Whether the full pair names region r.
pub fn names_region(pair: Option<Pair>, r: u32) -> bool
    ensures { result ≡ holds (full_pair_of pair) (contains r) }
{
    pair.is_some_and(|p| p.contains(r))
}

// Whether exactly one side of the full pair lies in the union.
fn fits_union(union: Pair, pair: Option<Pair>) -> bool
    ensures { result ≡ holds (full_pair_of pair) (fits_union (pair_form union)) }
{
    pair.is_some_and(|p| union.contains(p.lo) != union.contains(p.hi))
}

// The boundaries whose full pair names a region of the union, in ascending order; gives how many there are.
pub fn find_incidents(
    full: &[Option<Pair>; MAX_ENTRIES],
    count: usize,
    union: Pair,
    incidents: &mut [u8; MAX_ENTRIES],
) -> usize
    requires { (count ≤ max_entries) × (length incidents.old ≡ max_entries) }
    ensures { Listed full.now count (pair_form union) incidents.new result }
{
    let mut n = 0;
    for (j, &pair) in full[..count].iter().enumerate() {
        if names_region(pair, union.lo) | names_region(pair, union.hi) {
            incidents[n] = j as u8;
            n += 1;
        }
    }
    n
}

// Whether every incident of the two regions of the union, other than its own boundary, is a full pair with one side in the union. Walks over the boundaries whose
// full pair names one of the two, once for each region, and is left at the first that doesn't fit; an incident that is no full pair is not met here: it shows in the
// region's count.
pub fn ports_fit(lists: &JunctionLists, divider: &Divider) -> bool
    requires lo_named { (1 ≤ divider.now.union.lo) × (divider.now.union.lo ≤ length lists.now.counts.now) }
    requires hi_named { (1 ≤ divider.now.union.hi) × (divider.now.union.hi ≤ length lists.now.counts.now) }
    requires incidents { divider.now.incidents.now ≡ incidents_of lists.now.full.now lists.now.count (pair_form divider.now.union) }
    ensures { result ≡ walk_fits lists.now.full.now lists.now.counts.now lists.now.count divider.now.index
        (pair_form divider.now.union) }
{
    let mut fit = true;
    'regions: for r in [divider.union.lo, divider.union.hi] {
        let mut met = 0;
        for &j in divider.incidents {
            let pair = lists.full[j as usize];
            if names_region(pair, r) {
                if (j as usize != divider.index) & !fits_union(divider.union, pair) {
                    fit = false;
                    break 'regions;
                }
                met += 1;
            }
        }
        if met != lists.counts[r as usize - 1] as usize {
            fit = false;
            break 'regions;
        }
    }
    fit
}

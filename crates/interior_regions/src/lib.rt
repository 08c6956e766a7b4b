// What pass 2, `collapse_ramp_interiors` of ramp_boundaries.rs, does for a component that is proposed, but for its records: the regions of its interior one by
// one, and the marks of its edges.

#![tactic(auto)]

ghost use Rattle.std.specs.Prelude.{◌≡◌, false, ◌&&◌, ◌||◌, ℕ, ◌-◌, ◌≤◌, ◌<◌, length, get_or, List};
ghost use Rattle.definitions.specs.Limits.{max_entries};
ghost use Rattle.definitions.specs.Context.{Context};
ghost use Rattle.laws.specs.FloatLaws.Pixels.{PixelContext};
ghost use Rattle.interior_proposals.specs.Given.{Lent, SomeLent};
ghost use Rattle.interior_proposals.specs.Owners.{owned_by, owner_at};
ghost use Rattle.interior_regions.specs.Marks.{Interiors, SomeInteriors, StandsAt, LastEdge};
ghost use Rattle.interior_regions.specs.Places.{region_at, Readable, is_named};

use context::PartitionContext;
use context::found_regions::FoundRegions;
use definitions::limits::MAX_ENTRIES;
use interior_proposals::components::{is_named, name_components};
use interior_proposals::owners::find_owners;
use interior_proposals::ports::Ports;
use interior_proposals::proposals::propose_all;
use region_pairs::{REGIONS_PER_PAIR, region_at};

// The component at a boundary, the places of rows among which its regions stand, and its ports.
// Kept: with `places: Range<usize>` for `begin` and `end` this would be no Copy: `interior_fits` takes it by value, and `judge_interiors` reads the name behind
// that call, so that it would copy the name out before, or lend the whole and clone the range for the walk.
#[derive(Clone, Copy)]
pub struct Interior {
    pub name: u32,
    pub begin: usize,
    pub end: usize,
    pub ports: Ports,
}

// Where the record of the region at place k of the rows stands.
// Kept: the regions are walked place by place, two to a row, so that a turn of the walk in `interior_fits` asks of one region's name and record. Row by row,
// with `row_at`, a turn would ask the same of the lesser region and of the greater, in a loop within the loop.
pub fn record_place(pairs: &[u32], k: usize) -> usize
    requires { (n : ℕ) × Readable pairs.now n k }
    ensures { result ≡ region_at pairs.now k - 1 }
{
    region_at(pairs, k) as usize - 1
}

// Whether the region at place k has the name.
pub fn is_inside(pairs: &[u32], names: &[u32], name: u32, k: usize) -> bool
    requires { Readable pairs.now (length names.now) k }
    ensures { result ≡ is_named pairs.now names.now name k }
{
    is_named(names, region_at(pairs, k), name)
}

// Marks the boundaries that the component with the name owns.
pub fn mark_edges(
    owners: &[FoundRegions; MAX_ENTRIES],
    count: usize,
    name: u32,
    removed: &mut [bool; MAX_ENTRIES],
)
    requires { (count ≤ max_entries) × (length removed.old ≡ max_entries) }
    ensures removed { (j : ℕ) →
        j < count →
        get_or removed.new j false ≡ (get_or removed.old j false || owned_by name (owner_at owners.now j)) }
    ensures removed_length { length removed.new ≡ max_entries }
{
    // Kept: of the items of `iter_mut` that `zip` lends std says nothing behind the loop, and `removed[..count].iter_mut().enumerate()` would index `owners`.
    for (j, &owner) in owners[..count].iter().enumerate() {
        removed[j] |= owner == FoundRegions::One(name);
    }
}

// The last boundary that the component with the name owns.
fn last_edge(owners: &[FoundRegions; MAX_ENTRIES], count: usize, name: u32) -> Option<usize>
    requires { count ≤ max_entries }
    ensures { LastEdge owners.now count name result }
{
    // Kept: `owners[..count].iter().rposition(..)` would need no index, but std has laws of what `find` gives over a range, and none of what `rposition` gives.
    (0..count)
        .rev()
        .find(|&j| owners[j] == FoundRegions::One(name))
}

// What stands at boundary i, if ports were found. It is the first edge, and each region of the interior stands in a row of an edge or of a port.
pub fn interior_at(
    context: PartitionContext,
    owners: &[FoundRegions; MAX_ENTRIES],
    found: &[Option<Ports>; MAX_ENTRIES],
    i: usize,
) -> Option<Interior>
    requires i_within { i < context.count }
    requires interiors { SomeInteriors context.pairs.now context.starts.now owners.now found.now context.count }
    ensures { (C : Context) (boundaries tallies names : List ℕ) →
        Interiors C boundaries tallies context.entry.pairs.now context.entry.starts.now names owners.now found.now
        context.entry.count →
        StandsAt C context.entry.pairs.now names owners.now i result }
{
    // Kept: ports stand only where a component owns the boundary, so that its name beside them in `found` would save the test of the owner. But each entry
    // would hold a second time what `owners` holds, in a list of MAX_ENTRIES on the stack, and each promise of `found` would have to say that the two agree.
    let (Some(ports), FoundRegions::One(name)) = (found[i], owners[i]) else {
        return None;
    };
    let low = i.min(ports.first.min(ports.second));
    // Boundary i is an edge itself.
    let last = last_edge(owners, context.count, name).unwrap_or(i);
    let high = last.max(ports.first.max(ports.second));
    Some(Interior {
        name,
        begin: REGIONS_PER_PAIR * context.rows(low).start,
        end: REGIONS_PER_PAIR * context.rows(high).end,
        ports,
    })
}

// Names the components in place of the counts, and finds owners and ports.
pub fn find_interiors(
    context: PartitionContext,
    regions: usize,
    marks: &mut [u16],
    counts: &mut [u32],
    owners: &mut [FoundRegions; MAX_ENTRIES],
    found: &mut [Option<Ports>; MAX_ENTRIES],
)
    requires lent { SomeLent context.boundaries.now context.tallies.now context.pairs.now context.starts.now context.count regions marks.old counts.old }
    requires room { (length owners.old ≡ max_entries) × (length found.old ≡ max_entries) }
    ensures found { (C : Context) →
        Lent C context.entry.boundaries.now context.entry.tallies.now context.entry.pairs.now context.entry.starts.now
        context.entry.count regions marks.old counts.old →
        PixelContext C →
        Interiors C context.entry.boundaries.now context.entry.tallies.now context.entry.pairs.now context.entry.starts.now counts.new
        owners.new found.new context.entry.count }
    ensures lengths { (length marks.new ≡ length marks.old) × (length counts.new ≡ length counts.old) }
{
    name_components(context, regions, marks, counts);
    find_owners(context, counts, owners);
    propose_all(context, counts, marks, owners, found);
}

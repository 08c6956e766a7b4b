// Pass 2 over the lent slice of region records.
ghost use Rattle.std.specs.Prelude.{◌≡◌, length};
ghost use Rattle.definitions.specs.Limits.{max_entries};
ghost use Rattle.definitions.specs.Context.{Context};
ghost use Rattle.interior_regions.specs.Places.{interior_fits_lem};
ghost use Rattle.topology.specs.Interiors.{Asks, Judges, Collapses, Collapsed};
ghost use Rattle.topology.specs.Proposals.{Unmarked};

use context::found_regions::FoundRegions;
use context::{PartitionContext, Region};
use definitions::limits::MAX_ENTRIES;
use interior_proposals::fits::{reach_of, region_fits};
use interior_proposals::ports::Ports;
use interior_regions::{
    Interior, find_interiors, interior_at, is_inside, mark_edges, record_place,
};

// Whether every region of an interior fits its ports, and one has a ramp.
pub fn interior_fits(
    records: &[Region],
    context: PartitionContext,
    names: &[u32],
    interior: Interior,
) -> bool
    requires { (C : Context) × Asks C records.now context.boundaries.now context.pairs.now names.now interior }
    ensures { (C : Context) →
        Asks C records.now context.entry.boundaries.now context.entry.pairs.now names.now interior →
        result ≡ interior_fits_lem C context.entry.pairs.now names.now interior.name interior.begin interior.ports.first
        interior.ports.second interior.end }
{
    let reach = reach_of(context.boundaries, interior.ports);
    let mut fits = true;
    let mut ramp = false;
    // Kept: one walk gives both answers; two chains, `all` and `any`, are no plainer and read each region's record twice.
    for k in interior.begin..interior.end {
        if !is_inside(context.pairs, names, interior.name, k) {
            continue;
        }
        let region = records[record_place(context.pairs, k)];
        fits = fits & region_fits(reach, region);
        ramp = ramp | (0 < region.ramp_cells);
    }
    fits & ramp
}

// Marks the edges of each component that is proposed and whose regions fit. No boundary is marked before.
pub fn judge_interiors(
    records: &[Region],
    context: PartitionContext,
    names: &[u32],
    owners: &[FoundRegions; MAX_ENTRIES],
    found: &[Option<Ports>; MAX_ENTRIES],
    removed: &mut [bool; MAX_ENTRIES],
)
    requires interiors_found { (C : Context) × Judges C records.now context.boundaries.now context.pairs.now context.starts.now
        names.now owners.now found.now context.count }
    requires none_marked { (length removed.old ≡ max_entries) × Unmarked removed.old context.count }
    ensures { (C : Context) →
        Judges C records.now context.entry.boundaries.now context.entry.pairs.now context.entry.starts.now names.now
        owners.now found.now context.entry.count →
        Collapsed C context.entry.count removed.new }
{
    for i in 0..context.count {
        let Some(interior) = interior_at(context, owners, found, i) else {
            continue;
        };
        if interior_fits(records, context, names, interior) {
            mark_edges(owners, context.count, interior.name, removed);
        }
    }
}

// Pass 2: marks the boundaries that it removes. No boundary is marked before. Never put into its caller, as pass 1.
#[inline(never)]
pub fn collapse_ramp_interiors(
    records: &[Region],
    regions: usize,
    context: PartitionContext,
    marks: &mut [u16],
    counts: &mut [u32],
    removed: &mut [bool; MAX_ENTRIES],
)
    requires lists_show { (C : Context) × Collapses C records.now context.boundaries.now context.tallies.now context.pairs.now context.starts.now
        context.count regions marks.old counts.old }
    requires none_marked { (length removed.old ≡ max_entries) × Unmarked removed.old context.count }
    ensures { (C : Context) →
        Collapses C records.now context.entry.boundaries.now context.entry.tallies.now context.entry.pairs.now context.entry.starts.now
        context.entry.count regions marks.old counts.old →
        Collapsed C context.entry.count removed.new }
{
    let mut owners = [FoundRegions::None; MAX_ENTRIES];
    let mut found = [None; MAX_ENTRIES];
    find_interiors(context, regions, marks, counts, &mut owners, &mut found);
    judge_interiors(records, context, counts, &owners, &found, removed);
}

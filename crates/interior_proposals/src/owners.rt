// Which component the pairs of an ordinary full cut lie in.
ghost use Rattle.std.specs.Prelude.{◌≡◌, ◌<◌, length};
ghost use Rattle.definitions.specs.Limits.{max_entries};
ghost use Rattle.definitions.specs.Scan.{any};
ghost use Rattle.definitions.specs.Context.{Context};
ghost use Rattle.context.specs.Shown.{pairs_between};
ghost use Rattle.interior_proposals.specs.Given.{Kept, SomeKept, AllKept};
ghost use Rattle.interior_proposals.specs.Owners.{Walkable, pair_named, Common, Owned, Owners};

use crate::components::{is_named, is_ordinary, name_of};
use context::PartitionContext;
use context::found_regions::FoundRegions;
use context::pairs::row_at;
use definitions::limits::MAX_ENTRIES;
use std::ops::Range;

// What is known of components: the name that each region has, the marks of regions, and the owner of each boundary, the component in which all its pairs lie:
// none where it is no ordinary full cut or has no pair.
#[derive(Clone, Copy)]
pub struct Components<'a> {
    pub names: &'a [u32],
    pub marks: &'a [u16],
    pub owners: &'a [FoundRegions; MAX_ENTRIES],
}

// Whether a region of one of the rows is named r.
pub fn touches(names: &[u32], pairs: &[u32], mut rows: Range<usize>, r: u32) -> bool
    requires { Walkable pairs.now rows.start rows.end (length names.now) }
    ensures { result ≡ any (pair_named names.now r) (pairs_between pairs.now rows.start rows.end) }
{
    rows.any(|k| {
        let pair = row_at(pairs, k);
        is_named(names, pair.lo, r) | is_named(names, pair.hi, r)
    })
}

// The component that the smaller regions of all the rows have for their name.
fn common_name(names: &[u32], pairs: &[u32], mut rows: Range<usize>) -> FoundRegions
    requires { Walkable pairs.now rows.start rows.end (length names.now) }
    ensures { Common names.now (pairs_between pairs.now rows.start rows.end) result }
{
    if rows.start == rows.end {
        return FoundRegions::None;
    }
    let name = name_of(names, row_at(pairs, rows.start).lo);
    if rows.all(|k| is_named(names, row_at(pairs, k).lo, name)) {
        FoundRegions::One(name)
    } else {
        FoundRegions::Several
    }
}

fn owner_of(context: PartitionContext, names: &[u32], i: usize) -> FoundRegions
    requires { SomeKept context.boundaries.now context.tallies.now context.pairs.now context.starts.now names.now i }
    ensures { (C : Context) →
        Kept C context.entry.boundaries.now context.entry.tallies.now context.entry.pairs.now context.entry.starts.now names.now →
        i < C.count →
        Owned C i result }
{
    if is_ordinary(context, i) {
        common_name(names, context.pairs, context.rows(i))
    } else {
        FoundRegions::None
    }
}

// The owners of all boundaries.
pub fn find_owners(
    context: PartitionContext,
    names: &[u32],
    owners: &mut [FoundRegions; MAX_ENTRIES],
)
    requires kept { AllKept context.boundaries.now context.tallies.now context.pairs.now context.starts.now names.now context.count }
    requires owners_room { length owners.old ≡ max_entries }
    ensures { (C : Context) →
        Kept C context.entry.boundaries.now context.entry.tallies.now context.entry.pairs.now context.entry.starts.now names.now →
        C.count ≡ context.entry.count →
        Owners C owners.new }
{
    for (i, owner) in owners[..context.count].iter_mut().enumerate() {
        *owner = owner_of(context, names, i);
    }
}

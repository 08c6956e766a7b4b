// Candidates: components of one edge to eight whose edges have no pair elsewhere, and of which no region is anchored.
ghost use Rattle.std.specs.Prelude.{◌≡◌, ◌≤◌, ◌<◌, length};
ghost use Rattle.definitions.specs.Limits.{max_entries};
ghost use Rattle.definitions.specs.Scan.{any, count_below};
ghost use Rattle.definitions.specs.Context.{Context};
ghost use Rattle.context.specs.Shown.{pairs_between};
ghost use Rattle.interior_proposals.specs.Owners.{Walkable, owned_by, owner_at, Owned, Owners};
ghost use Rattle.interior_proposals.specs.Candidates.{Mapped, SomeMapped, AllMapped, is_marked, pair_marked, spoils_at, candidate};

use crate::components::name_of;
use crate::owners::{Components, touches};
use context::PartitionContext;
use context::found_regions::FoundRegions;
use context::pairs::row_at;
use context::region_marks::is_anchored;
use definitions::limits::MAX_ENTRIES;
use std::ops::Range;

const MAX_INTERIOR_EDGES: usize = 8;

// Whether a region of one of the rows is anchored.
fn any_anchored(marks: &[u16], pairs: &[u32], mut rows: Range<usize>) -> bool
    requires { Walkable pairs.now rows.start rows.end (length marks.now) }
    ensures { result ≡ any (pair_marked marks.now) (pairs_between pairs.now rows.start rows.end) }
{
    rows.any(|k| {
        let pair = row_at(pairs, k);
        is_anchored(marks, pair.lo) | is_anchored(marks, pair.hi)
    })
}

// Whether boundary i is an edge that keeps the component r from being a candidate: it has a pair elsewhere, or a region of it is anchored.
fn spoils(context: PartitionContext, known: Components, i: usize, r: u32) -> bool
    requires { SomeMapped context.pairs.now context.starts.now known.names.now known.marks.now r i }
    ensures { (C : Context) →
        Mapped C context.entry.pairs.now context.entry.starts.now known.entry.names.now known.entry.marks.now r →
        i < C.count →
        Owned C i (owner_at known.entry.owners.now i) →
        result ≡ spoils_at C r i }
{
    let rows = context.rows(i);
    match known.owners[i] {
        FoundRegions::None => false,
        FoundRegions::One(name) => (name == r) && any_anchored(known.marks, context.pairs, rows),
        FoundRegions::Several => touches(known.names, context.pairs, rows, r),
    }
}

// How many boundaries the component r owns: the edges that lie whole in it.
fn edge_count(owners: &[FoundRegions; MAX_ENTRIES], count: usize, r: u32) -> usize
    requires { count ≤ max_entries }
    ensures { result ≡ count_below count (λ i. owned_by r (owner_at owners.now i)) }
{
    owners[..count]
        .iter()
        .filter(|&&owner| owner == FoundRegions::One(r))
        .count()
}

// Whether r names a candidate.
pub fn is_candidate(context: PartitionContext, known: Components, r: u32) -> bool
    requires { AllMapped context.pairs.now context.starts.now known.names.now known.marks.now r context.count }
    ensures { (C : Context) →
        Mapped C context.entry.pairs.now context.entry.starts.now known.entry.names.now known.entry.marks.now r →
        C.count ≡ context.entry.count →
        Owners C known.entry.owners.now →
        result ≡ candidate C r }
{
    if name_of(known.names, r) != r {
        return false;
    }
    if (0..context.count).any(|i| spoils(context, known, i, r)) {
        return false;
    }
    let edges = edge_count(known.owners, context.count, r);
    (1 <= edges) & (edges <= MAX_INTERIOR_EDGES)
}

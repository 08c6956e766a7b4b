// The components of regions that ordinary full cuts join, as classes of crate `parents` in a lent list, where region r is number r - 1; then the name of each
// region.
ghost use Rattle.std.specs.Prelude.{◌≡◌, List, [], ◌∷◌, ℕ, suc, ◌+◌, ◌-◌, ◌*◌, ◌%◌, ◌≤◌, ◌<◌, eqb, length, get_or, set, false};
ghost use Rattle.definitions.specs.Limits.{max_side, numbers_per_pair, tallies_per_span};
ghost use Rattle.definitions.specs.Context.{Context};
ghost use Rattle.definitions.specs.RampInteriors.{is_ordinary, links};
ghost use Rattle.context.specs.Shown.{ShownBoundaries, ShownTallies, ShownAnchored, ShownIncidents, pairs_between};
ghost use Rattle.geometry.specs.Placed.{HasBoundary};
ghost use Rattle.laws.specs.ListLaws.Beyond.{Beyond};
ghost use Rattle.interior_proposals.specs.Forest.{Parented, Merged, Rows, RowsJoinable, Forest, Names};
ghost use Rattle.interior_proposals.specs.Given.{Given, Lent, SomeLent, flags_of, alone, links_of, CutJoinable, CutsJoinable, Prepared, Known};

use context::PartitionContext;
use context::pairs::{Pair, row_at};
use geometry::boundaries::has_ramp;
use parents::{alone, join};
use std::ops::Range;

// The bits of a region's mark above the lowest, which says that it is anchored: it has exactly one incident; it is an exterior.
// Kept: the marks are numbers in a list that C lends, with one for each region and no other room, so that what is known of a region is bits of its number.
pub(crate) const SINGLE: u16 = 2;

pub(crate) const EXTERIOR: u16 = 4;

// The name of region r.
pub fn name_of(parents: &[u32], r: u32) -> u32
    requires { (1 ≤ r) × (r ≤ length parents.now) }
    ensures { result ≡ get_or parents.now (r - 1) 0 }
{
    parents[r as usize - 1]
}

// Whether region x is named r.
pub fn is_named(names: &[u32], x: u32, r: u32) -> bool
    requires { (1 ≤ x) × (x ≤ length names.now) }
    ensures { result ≡ eqb (get_or names.now (x - 1) 0) r }
{
    name_of(names, x) == r
}

pub(crate) fn set_name(parents: &mut [u32], r: u32, p: u32)
    requires { (1 ≤ r) × (r ≤ length parents.old) }
    ensures { parents.new ≡ set parents.old (r - 1) p }
{
    parents[r as usize - 1] = p;
}

// Joins the regions of each pair of the rows.
fn join_pairs(parents: &mut [u32], pairs: &[u32], rows: Range<usize>)
    requires sizes { (rows.start ≤ rows.end) × (numbers_per_pair * rows.end ≤ length pairs.now) }
    requires joinable { RowsJoinable parents.old pairs.now rows.start rows.end }
    ensures { (cs : List ℕ) →
        Parented cs parents.old →
        Rows (length cs) pairs.now rows.start rows.end →
        Merged cs parents.old (pairs_between pairs.now rows.start rows.end) parents.new }
{
    for k in rows {
        let Pair { lo, hi } = row_at(pairs, k);
        join(parents, lo as usize - 1, hi as usize - 1);
    }
}

// Whether boundary i is an ordinary full cut: it has no ramp.
pub(crate) fn is_ordinary(context: PartitionContext, i: usize) -> bool
    requires { HasBoundary context.boundaries.now i × (tallies_per_span * i + 1 < length context.tallies.now) }
    ensures { (C : Context) →
        ShownBoundaries C context.entry.boundaries.now →
        ShownTallies C context.entry.tallies.now →
        i < C.count →
        result ≡ is_ordinary C i }
{
    !has_ramp(context.boundaries, i) & context.full_cut(i)
}

// Joins the regions of each pair of boundary i, if it is an ordinary full cut.
fn join_cut(parents: &mut [u32], context: PartitionContext, i: usize)
    requires { CutJoinable context.boundaries.now context.tallies.now context.pairs.now context.starts.now parents.old i }
    ensures { (C : Context) (cs : List ℕ) →
        Given C context.entry.boundaries.now context.entry.tallies.now context.entry.pairs.now context.entry.starts.now →
        i < C.count →
        Parented cs parents.old →
        length cs ≡ suc C.regions →
        Merged cs parents.old (links_of C i) parents.new }
{
    if is_ordinary(context, i) {
        join_pairs(parents, context.pairs, context.rows(i));
    }
}

// Joins the regions of the pairs of all ordinary full cuts.
fn join_cuts(parents: &mut [u32], context: PartitionContext)
    requires { CutsJoinable context.boundaries.now context.tallies.now context.pairs.now context.starts.now parents.old context.count }
    ensures { (C : Context) →
        Given C context.entry.boundaries.now context.entry.tallies.now context.entry.pairs.now context.entry.starts.now →
        C.count ≡ context.entry.count →
        Parented (alone C) parents.old →
        Merged (alone C) parents.old (links C) parents.new }
{
    for i in 0..context.count {
        join_cut(parents, context, i);
    }
}

// In place of its parent each region gets its name, in ascending order: the name of a parent stands there already, and who is his own parent is his own name.
fn flatten(parents: &mut [u32], regions: usize)
    requires { Forest parents.old regions }
    ensures named { (cs : List ℕ) → Parented cs parents.old → length cs ≡ suc regions → Names cs parents.new }
    ensures beyond { Beyond regions parents.old parents.new }
{
    // Kept: each turn reads the list at a lower place too, which an iterator over its entries would not let it.
    for k in 0..regions {
        let p = parents[k] as usize;
        let name = if p == k { k as u32 + 1 } else { parents[p] };
        parents[k] = name;
    }
}

// The mark of a region that has `count` incidents: whether it is anchored, and whether it has exactly one incident.
fn flags(mark: u16, count: u32) -> u16
    ensures { result ≡ flags_of (eqb (mark % 2) 1) (eqb count 1) false }
{
    let anchored = mark % SINGLE;
    if count == 1 {
        anchored + SINGLE
    } else {
        anchored
    }
}

// Moves what is needed of the counts of incidents into the marks, and makes each region a class of its own in their place.
fn prepare(marks: &mut [u16], counts: &mut [u32], regions: usize)
    requires { (regions ≤ length marks.old) × (regions ≤ length counts.old) × (regions ≤ max_side * max_side) }
    ensures prepared { (C : Context) →
        C.regions ≡ regions →
        ShownAnchored C marks.old →
        ShownIncidents C counts.old →
        Prepared C marks.new counts.new }
    ensures beyond { Beyond regions marks.old marks.new × Beyond regions counts.old counts.new }
{
    for (k, mark) in marks[..regions].iter_mut().enumerate() {
        *mark = flags(*mark, counts[k]);
    }
    alone(counts, regions);
}

// Names the component of each region by its least region, in place of the counts of incidents.
pub fn name_components(
    context: PartitionContext,
    regions: usize,
    marks: &mut [u16],
    counts: &mut [u32],
)
    requires { SomeLent context.boundaries.now context.tallies.now context.pairs.now context.starts.now context.count regions marks.old counts.old }
    ensures known { (C : Context) →
        Lent C context.entry.boundaries.now context.entry.tallies.now context.entry.pairs.now context.entry.starts.now
        context.entry.count regions marks.old counts.old →
        Known C marks.new counts.new }
    ensures beyond { Beyond regions marks.old marks.new × Beyond regions counts.old counts.new }
{
    prepare(marks, counts, regions);
    join_cuts(counts, context);
    flatten(counts, regions);
}

// What a mouth and a ramp propose, before the records of regions are looked at.
ghost use Rattle.std.specs.Prelude.{◌≡◌, Some, true, false, cond, ℕ, ◌+◌, ◌≤◌, ◌<◌, length, get_or};
ghost use Rattle.definitions.specs.Scan.{all};
ghost use Rattle.definitions.specs.MouthShapes.{regions_of, distinct_regions};
ghost use Rattle.definitions.specs.Context.{Context, full_cut, no_ramp};
ghost use Rattle.definitions.specs.RampMouths.{other_end_incident, triangle_mouth};
ghost use Rattle.context.specs.Shown.{pairs_between, ShownTallies, ShownPairs, ShownIncidents, ShownAnchored};
ghost use Rattle.context.specs.Rows.{Stretch};
ghost use Rattle.mouth_proposals.specs.Rows.{EdgesWithin, edges_form};
ghost use Rattle.mouth_proposals.specs.Lent.{NamedBetween, PassShows, PassShown};
ghost use Rattle.mouth_proposals.specs.Outers.{mark_at, inner_fits, with_region};
ghost use Rattle.mouth_proposals.specs.Candidates.{plain, broad, is_triangular, is_broad, Within, Measured, candidate_form, found_mouth, approach_mouth};
ghost use Rattle.mouth_proposals.specs.Ends.{EndsOf, EndKnown};

use crate::approaches::{Approach, Sides, approach_of};
use crate::ends::{OtherEnds, Ramp, other_end_at};
use crate::measures::Measures;
use crate::regions::RegionMarks;
use crate::shapes::{Edges, triangle_representative};
use context::PartitionContext;
use context::found_regions::FoundRegions;
use context::pairs::row_at;
use geometry::boundaries::has_ramp;
use std::ops::Range;

// What a proposal is made of: one pair or a star, a triangle, or a broad approach of two ports.
#[derive(Clone, Copy, PartialEq, Eq)]
pub enum MouthKind {
    Plain,
    Triangular,
    Broad,
}

impl MouthKind {
    pub fn is_triangular(self) -> bool
        ensures { result ≡ is_triangular self }
    {
        self == MouthKind::Triangular
    }

    pub fn is_broad(self) -> bool
        ensures { result ≡ is_broad self }
    {
        self == MouthKind::Broad
    }

    // Of a mouth that is no triangle.
    fn of_approach(two_port_broad: bool) -> Self
        ensures { result ≡ cond two_port_broad broad plain }
    {
        if two_port_broad {
            MouthKind::Broad
        } else {
            MouthKind::Plain
        }
    }
}

// The region outside, if there is one, and the kind; `candidate_form` of specs/Candidates.antt gives the proposal.
#[derive(Clone, Copy, PartialEq, Eq)]
pub struct Mouth {
    pub outer: Option<u32>,
    pub kind: MouthKind,
}

// Whether every inner region of the star of these rows fits.
fn inner_fit(pairs: &[u32], regions: RegionMarks, mut rows: Range<usize>, sides: Sides) -> bool
    requires ordered { rows.start ≤ rows.end }
    requires named_rows { NamedBetween pairs.now regions rows.start rows.end }
    ensures { result
        ≡ all (inner_fits regions.entry.marks.now regions.entry.counts.now sides.outer sides.approach)
        (regions_of (pairs_between pairs.now rows.start rows.end)) }
{
    rows.all(|k| {
        let p = row_at(pairs, k);
        regions.fits(sides, p.lo) & regions.fits(sides, p.hi)
    })
}

// The proposal of a mouth of one pair; `blocked` says that the ramp's other end is an incident of the approach.
fn single_mouth(
    regions: RegionMarks,
    sides: Sides,
    blocked: bool,
    measures: Measures,
) -> Option<Mouth>
    requires outer_named { (1 ≤ sides.outer) × (sides.outer ≤ length regions.marks.now) }
    requires approach_named { (1 ≤ sides.approach) × ((sides.approach ≤ length regions.marks.now) × (sides.approach ≤ length regions.counts.now)) }
    ensures { (C : Context) (m a : ℕ) →
        ShownIncidents C regions.entry.counts.now →
        ShownAnchored C regions.entry.marks.now →
        (sides.outer ≤ C.regions) × (sides.approach ≤ C.regions) →
        blocked ≡ other_end_incident C a sides.approach →
        Measured C m a measures →
        candidate_form C m a result ≡ approach_mouth C m a (Some (Approach.Single sides)) }
{
    let overlay = measures.overlay_only();
    let two = regions.incident_count(sides.approach) == 2;
    let outer_anchored = regions.is_anchored(sides.outer);
    let kept_out = overlay & (outer_anchored | !two);
    let fits = !regions.is_anchored(sides.approach) & (!kept_out & !blocked);
    fits.then_some(Mouth {
        outer: Some(sides.outer),
        kind: MouthKind::of_approach((measures.broad | overlay) & two),
    })
}

// The proposal of a star; `blocked` as above.
fn star_mouth(
    context: PartitionContext,
    regions: RegionMarks,
    m: usize,
    sides: Sides,
    blocked: bool,
    measures: Measures,
) -> Option<Mouth>
    requires stretch { Stretch context.pairs.now context.starts.now m }
    requires named_rows { NamedBetween context.pairs.now regions (get_or context.starts.now m 0) (get_or context.starts.now (m + 1) 0) }
    requires approach_named { (1 ≤ sides.approach) × (sides.approach ≤ length regions.counts.now) }
    ensures { (C : Context) (a : ℕ) →
        ShownPairs C context.entry.pairs.now context.entry.starts.now →
        ShownIncidents C regions.entry.counts.now →
        ShownAnchored C regions.entry.marks.now →
        m < C.count →
        sides.approach ≤ C.regions →
        blocked ≡ other_end_incident C a sides.approach →
        Measured C m a measures →
        candidate_form C m a result ≡ approach_mouth C m a (Some (Approach.Star sides)) }
{
    if measures.overlay_only() | (regions.incident_count(sides.approach) != 2) | blocked {
        return None;
    }
    inner_fit(context.pairs, regions, context.rows(m), sides).then_some(Mouth {
        outer: Some(sides.outer),
        kind: MouthKind::of_approach(measures.broad),
    })
}

// The anchored regions found so far and, if it is anchored, r.
fn with_region(regions: RegionMarks, found: FoundRegions, r: u32) -> FoundRegions
    requires { (1 ≤ r) × (r ≤ length regions.marks.now) }
    ensures { result ≡ cond (mark_at regions.entry.marks.now r) (with_region found r) found }
{
    if !regions.is_anchored(r) {
        return found;
    }
    match found {
        FoundRegions::None => FoundRegions::One(r),
        FoundRegions::One(s) if s == r => found,
        FoundRegions::One(_) | FoundRegions::Several => FoundRegions::Several,
    }
}

// The proposal of a triangle, whose regions the mouth's edges name: one of them at most is anchored, and that one is outside.
fn triangle_mouth(regions: RegionMarks, edges: Edges) -> Option<Mouth>
    requires { EdgesWithin (length regions.marks.now) edges }
    ensures { (C : Context) (m a : ℕ) →
        ShownAnchored C regions.entry.marks.now →
        EdgesWithin C.regions edges →
        C.pairs m ≡ edges_form edges →
        candidate_form C m a result ≡ triangle_mouth C m a (distinct_regions (C.pairs m)) }
{
    let Edges { first, second } = edges;
    let one = with_region(regions, FoundRegions::None, first.lo);
    let two = with_region(regions, one, first.hi);
    let three = with_region(regions, two, second.lo);
    let outer = match with_region(regions, three, second.hi) {
        FoundRegions::None => None,
        FoundRegions::One(r) => Some(r),
        FoundRegions::Several => return None,
    };
    Some(Mouth {
        outer,
        kind: MouthKind::Triangular,
    })
}

// The proposal of an approach of mouth m and of the ramp whose other end `ends` tells of.
fn approach_mouth(
    context: PartitionContext,
    regions: RegionMarks,
    m: usize,
    ends: Option<OtherEnds>,
    approach: Option<Approach>,
    measures: Measures,
) -> Option<Mouth>
    requires stretch { Stretch context.pairs.now context.starts.now m }
    requires named_rows { NamedBetween context.pairs.now regions (get_or context.starts.now m 0) (get_or context.starts.now (m + 1) 0) }
    requires approach_within { Within (length regions.counts.now) approach × Within (length regions.marks.now) approach }
    ensures { (C : Context) (a : ℕ) →
        ShownPairs C context.entry.pairs.now context.entry.starts.now →
        ShownIncidents C regions.entry.counts.now →
        ShownAnchored C regions.entry.marks.now →
        m < C.count →
        Within C.regions approach →
        EndKnown C a ends approach →
        Measured C m a measures →
        candidate_form C m a result ≡ approach_mouth C m a approach }
{
    let approach = approach?;
    let (Approach::Single(sides) | Approach::Star(sides)) = approach;
    let blocked = other_end_at(ends, sides.approach);
    match approach {
        Approach::Single(_) => single_mouth(regions, sides, blocked, measures),
        Approach::Star(_) => star_mouth(context, regions, m, sides, blocked, measures),
    }
}

// What mouth m proposes to the ramp, a full cut; its shape is looked at before anything is measured.
pub fn mouth_candidate(
    context: PartitionContext,
    regions: RegionMarks,
    m: usize,
    ramp: Ramp,
) -> Option<Mouth>
    requires shown { PassShown context regions }
    requires places { (m < context.count) × (ramp.boundary < context.count) }
    ensures { (C : Context) →
        PassShows context.entry regions.entry C →
        ShownTallies C context.entry.tallies.now →
        no_ramp C ramp.boundary ≡ false →
        full_cut C ramp.boundary ≡ true →
        EndsOf C ramp.boundary ramp.ends →
        candidate_form C m ramp.boundary result ≡ found_mouth C ramp.boundary m }
{
    let a = ramp.boundary;
    if has_ramp(context.boundaries, m) || !context.full_cut(m) {
        return None;
    }
    let triangle = triangle_representative(context, m, a);
    let approach = approach_of(context, m, a);
    if triangle.is_none() & approach.is_none() {
        return None;
    }
    let measures = Measures::of(context.boundaries, m, a);
    if !measures.any() {
        return None;
    }
    match triangle {
        Some(edges) if measures.nearby => triangle_mouth(regions, edges),
        _ => approach_mouth(context, regions, m, ramp.ends, approach, measures),
    }
}

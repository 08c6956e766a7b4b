// Whether the other end of a ramp is an incident of a region: found once for both regions of the ramp's full pair, before its mouths are gone through.
ghost use Rattle.std.specs.Prelude.{◌≡◌, ℕ, ◌+◌, ◌*◌, ◌≤◌, ◌<◌, length};
ghost use Rattle.definitions.specs.Limits.{tallies_per_span};
ghost use Rattle.definitions.specs.Context.{Context};
ghost use Rattle.definitions.specs.RampMouths.{other_end_incident};
ghost use Rattle.context.specs.Shown.{ShownBoundaries, ShownTallies, ShownPairs};
ghost use Rattle.context.specs.Rows.{Stretch};
ghost use Rattle.mouth_proposals.specs.Lent.{HasBoundaries};
ghost use Rattle.mouth_proposals.specs.Ends.{is_other_end, end_at, EndsOf};

use context::PartitionContext;
use context::pairs::Pair;
use geometry::boundaries::{has_ramp, ramp_at, same_kind};

// Of a ramp with a full pair: the smaller region of the pair, and the answers for it and for the larger one.
#[derive(Clone, Copy)]
pub struct OtherEnds {
    pub lo: u32,
    pub at_lo: bool,
    pub at_hi: bool,
}

// A ramp: its boundary, and what is known of its other end; none without a full pair, since no mouth has an approach then.
#[derive(Clone, Copy)]
pub struct Ramp {
    pub boundary: usize,
    pub ends: Option<OtherEnds>,
}

// Whether boundary j is the other end of the ramp of boundary a, and an incident of region r.
fn is_other_end(context: PartitionContext, a: usize, r: u32, j: usize) -> bool
    requires sizes { HasBoundaries context }
    requires places { (a < context.count) × (j < context.count) }
    requires stretch { Stretch context.pairs.now context.starts.now j }
    ensures { (C : Context) →
        C.count ≡ context.entry.count →
        ShownBoundaries C context.entry.boundaries.now →
        ShownPairs C context.entry.pairs.now context.entry.starts.now →
        result ≡ is_other_end C a r j }
{
    let same_ramp = ramp_at(context.boundaries, j) == ramp_at(context.boundaries, a);
    let is_end = has_ramp(context.boundaries, j) & same_ramp & !same_kind(context.boundaries, j, a);
    is_end && context.is_incident(j, r)
}

// Whether the other end of the ramp of boundary a is an incident of region r.
fn other_end_incident(context: PartitionContext, a: usize, r: u32) -> bool
    requires sizes { HasBoundaries context × (a < context.count) }
    requires stretches { (i : ℕ) → i < context.count → Stretch context.pairs.now context.starts.now i }
    ensures { (C : Context) →
        C.count ≡ context.entry.count →
        ShownBoundaries C context.entry.boundaries.now →
        ShownPairs C context.entry.pairs.now context.entry.starts.now →
        result ≡ other_end_incident C a r }
{
    (0..context.count).any(|j| is_other_end(context, a, r, j))
}

// The answers for ramp a.
pub fn find_other_ends(context: PartitionContext, a: usize) -> Option<OtherEnds>
    requires sizes { HasBoundaries context × (a < context.count) }
    requires tallies_room { tallies_per_span * a + 1 < length context.tallies.now }
    requires stretches { (i : ℕ) → i < context.count → Stretch context.pairs.now context.starts.now i }
    ensures { (C : Context) →
        C.count ≡ context.entry.count →
        ShownBoundaries C context.entry.boundaries.now →
        ShownTallies C context.entry.tallies.now →
        ShownPairs C context.entry.pairs.now context.entry.starts.now →
        EndsOf C a result }
{
    let Pair { lo, hi } = context.full_pair(a)?;
    let at_lo = other_end_incident(context, a, lo);
    let at_hi = other_end_incident(context, a, hi);
    Some(OtherEnds { lo, at_lo, at_hi })
}

// The answer for region r, one of the two.
pub fn other_end_at(ends: Option<OtherEnds>, r: u32) -> bool
    ensures { result ≡ end_at ends r }
{
    ends.is_some_and(|e| if e.lo == r { e.at_lo } else { e.at_hi })
}

// The approach of a mouth: the one of its regions that the ramp's full pair names.
ghost use Rattle.std.specs.Prelude.{◌≡◌, true, ◌+◌, ◌*◌, ◌<◌, length, Some};
ghost use Rattle.definitions.specs.Limits.{tallies_per_span};
ghost use Rattle.definitions.specs.Scan.{filter};
ghost use Rattle.definitions.specs.Grid.{contains};
ghost use Rattle.definitions.specs.MouthShapes.{mouth_shape};
ghost use Rattle.definitions.specs.Context.{Context, full_pair};
ghost use Rattle.context.specs.Shown.{ShownTallies, ShownPairs};
ghost use Rattle.context.specs.Rows.{Stretch, pair_form};
ghost use Rattle.mouth_proposals.specs.Rows.{inner_of, shape_form, one_of};
ghost use Rattle.mouth_proposals.specs.Candidates.{approach_of};

use crate::shapes::{Shape, region_of, star};
use context::PartitionContext;
use context::pairs::Pair;

// The region outside a mouth, and the approach.
#[derive(Clone, Copy, PartialEq, Eq)]
pub struct Sides {
    pub outer: u32,
    pub approach: u32,
}

// The approach of a mouth of one pair or of a star.
#[derive(Clone, Copy, PartialEq, Eq)]
pub enum Approach {
    Single(Sides),
    Star(Sides),
}

// The one region of q that a row of mouth m names, but for the one outside; none where there are none or two.
fn shared_region(context: PartitionContext, m: usize, outer: Option<u32>, q: Pair) -> Option<u32>
    requires { Stretch context.pairs.now context.starts.now m }
    ensures { (C : Context) →
        ShownPairs C context.entry.pairs.now context.entry.starts.now →
        m < C.count →
        q.lo < q.hi →
        result ≡ one_of (filter (λ r. contains r (pair_form q)) (inner_of outer (C.pairs m))) }
{
    let lo = (Some(q.lo) != outer) & context.is_incident(m, q.lo);
    let hi = (Some(q.hi) != outer) & context.is_incident(m, q.hi);
    region_of(q, lo, hi)
}

// The approach of mouth m, whose shape is s, from the ramp's full pair q.
fn approach_from(context: PartitionContext, m: usize, s: Shape, q: Pair) -> Option<Approach>
    requires { Stretch context.pairs.now context.starts.now m }
    ensures { (C : Context) →
        ShownPairs C context.entry.pairs.now context.entry.starts.now →
        m < C.count →
        q.lo < q.hi →
        shape_form (C.pairs m) (Some s) ≡ mouth_shape true (C.pairs m) →
        result ≡ approach_of (Some (pair_form q)) (mouth_shape true (C.pairs m)) }
{
    match s {
        Shape::Single(p) => {
            let r = shared_region(context, m, None, q)?;
            Some(Approach::Single(Sides {
                outer: p.other(r),
                approach: r,
            }))
        }
        Shape::Star(outer) => {
            let r = shared_region(context, m, Some(outer), q)?;
            Some(Approach::Star(Sides { outer, approach: r }))
        }
    }
}

// The approach of mouth m, a full cut, from ramp a.
pub fn approach_of(context: PartitionContext, m: usize, a: usize) -> Option<Approach>
    requires tallies_room { tallies_per_span * a + 1 < length context.tallies.now }
    requires stretch { Stretch context.pairs.now context.starts.now m × Stretch context.pairs.now context.starts.now a }
    ensures { (C : Context) →
        ShownTallies C context.entry.tallies.now →
        ShownPairs C context.entry.pairs.now context.entry.starts.now →
        m < C.count →
        a < C.count →
        result ≡ approach_of (full_pair C a) (mouth_shape true (C.pairs m)) }
{
    let q = context.full_pair(a)?;
    let s = star(context, m)?;
    approach_from(context, m, s, q)
}

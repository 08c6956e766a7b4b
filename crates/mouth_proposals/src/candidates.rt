// The candidates of one ramp, as a list of structs, mouth by mouth.
ghost use Rattle.std.specs.Prelude.{◌≡◌, false, true, List, ◌++◌, ◌+◌, ◌≤◌, ◌<◌};
ghost use Rattle.definitions.specs.Limits.{max_entries};
ghost use Rattle.definitions.specs.Scan.{collect, to_list};
ghost use Rattle.definitions.specs.Context.{Context, full_cut, no_ramp};
ghost use Rattle.definitions.specs.RampMouths as definition;
ghost use Rattle.context.specs.Shown.{ShownTallies};
ghost use Rattle.mouth_proposals.specs.Lent.{PassShows, PassShown};
ghost use Rattle.mouth_proposals.specs.Candidates.{mouth_candidate};
ghost use Rattle.mouth_proposals.specs.Ends.{EndsOf};
ghost use Rattle.mouth_proposals.specs.Listed.{max_candidates, blank, candidate, proposal_form, Filled, Roomy};

use crate::ends::{Ramp, find_other_ends};
use crate::measures::{is_close, separation_of};
use crate::mouths::{Mouth, MouthKind, mouth_candidate};
use crate::regions::RegionMarks;
use context::PartitionContext;
use definitions::limits::MAX_ENTRIES;
use geometry::boundaries::has_ramp;

// What a mouth proposes to a ramp (`MouthProposal` of ramp_boundaries.rs): the boundaries of both, the region outside, if there is one, and the kind. Its inner
// regions are the others that the mouth's rows name.
#[derive(Clone, Copy, PartialEq, Eq)]
pub struct MouthProposal {
    pub mouth: usize,
    pub ramp: usize,
    pub outer: Option<u32>,
    pub kind: MouthKind,
}

// A proposal as the lists keep it, with the bits of the separation.
// Kept: the two boundaries as bytes, and not a `MouthProposal` beside the separation, whose places are of type `usize`: two lists of 256 of these stand on the
// stack, which take 24 bytes each so and would take 40.
#[derive(Clone, Copy, PartialEq, Eq)]
pub struct Candidate {
    pub mouth: u8,
    pub ramp: u8,
    pub outer: Option<u32>,
    pub kind: MouthKind,
    pub separation: u64,
}

impl Candidate {
    // What stands in a list where no candidate is written.
    pub fn blank() -> Self
        ensures { result ≡ blank }
    {
        Self {
            mouth: 0,
            ramp: 0,
            outer: None,
            kind: MouthKind::Plain,
            separation: 0,
        }
    }

    pub fn proposal(self) -> MouthProposal
        ensures { result ≡ proposal_form self }
    {
        MouthProposal {
            mouth: self.mouth as usize,
            ramp: self.ramp as usize,
            outer: self.outer,
            kind: self.kind,
        }
    }

    fn of(m: usize, a: usize, found: Mouth, separation: u64) -> Self
        requires { (m < max_entries) × (a < max_entries) }
        ensures { result ≡ candidate m a found.outer found.kind separation }
    {
        Self {
            mouth: m as u8,
            ramp: a as u8,
            outer: found.outer,
            kind: found.kind,
            separation,
        }
    }
}

// What mouth m proposes to the ramp within the distance: entry n, if there is one. Gives the number of entries.
fn push_mouth(
    context: PartitionContext,
    regions: RegionMarks,
    entries: &mut [Candidate; MAX_ENTRIES],
    n: usize,
    m: usize,
    ramp: Ramp,
) -> usize
    requires shown { PassShown context regions }
    requires roomy { Roomy entries.old }
    requires places { (n < max_candidates) × ((m < context.count) × (ramp.boundary < context.count)) }
    ensures bound { (n ≤ result) × (result ≤ n + 1) }
    ensures still_roomy { Roomy entries.new }
    ensures filled { (C : Context) (l : List definition.MouthProposal) →
        PassShows context.entry regions.entry C →
        ShownTallies C context.entry.tallies.now →
        no_ramp C ramp.boundary ≡ false →
        full_cut C ramp.boundary ≡ true →
        EndsOf C ramp.boundary ramp.ends →
        Filled C entries.old n l →
        Filled C entries.new result (l
        ++ to_list (mouth_candidate C ramp.boundary m)) }
{
    match mouth_candidate(context, regions, m, ramp) {
        None => n,
        Some(found) => {
            let separation = separation_of(context.boundaries, m, ramp.boundary);
            if is_close(separation) {
                entries[n] = Candidate::of(m, ramp.boundary, found, separation.to_bits());
                n + 1
            } else {
                n
            }
        }
    }
}

// The candidates of the ramp, a full cut.
fn push_mouths(
    context: PartitionContext,
    regions: RegionMarks,
    entries: &mut [Candidate; MAX_ENTRIES],
    ramp: Ramp,
) -> usize
    requires shown { PassShown context regions }
    requires roomy { Roomy entries.old }
    requires place { ramp.boundary < context.count }
    ensures bound { result ≤ max_candidates }
    ensures still_roomy { Roomy entries.new }
    ensures filled { (C : Context) →
        PassShows context.entry regions.entry C →
        ShownTallies C context.entry.tallies.now →
        no_ramp C ramp.boundary ≡ false →
        full_cut C ramp.boundary ≡ true →
        EndsOf C ramp.boundary ramp.ends →
        Filled C entries.new result
        (collect context.entry.count (mouth_candidate C ramp.boundary)) }
{
    let mut n = 0;
    // Kept: n goes in and out. A struct of `entries` and n, whose method adds what is found, would promise besides that it holds the same list at exit, and
    // only these lines would use it; a fold would carry n beside the list that its closure fills.
    for m in 0..context.count {
        n = push_mouth(context, regions, &mut *entries, n, m, ramp);
    }
    n
}

// The candidates of boundary a, which may be no ramp, or no full cut. Gives their number.
pub fn push_ramp(
    context: PartitionContext,
    regions: RegionMarks,
    entries: &mut [Candidate; MAX_ENTRIES],
    a: usize,
) -> usize
    requires shown { PassShown context regions }
    requires roomy { Roomy entries.old }
    requires place { a < context.count }
    ensures bound { result ≤ max_candidates }
    ensures still_roomy { Roomy entries.new }
    ensures filled { (C : Context) →
        PassShows context.entry regions.entry C →
        ShownTallies C context.entry.tallies.now →
        Filled C entries.new result
        (collect context.entry.count (mouth_candidate C a)) }
{
    if !has_ramp(context.boundaries, a) || !context.full_cut(a) {
        return 0;
    }
    let ends = find_other_ends(context, a);
    push_mouths(context, regions, &mut *entries, Ramp { boundary: a, ends })
}

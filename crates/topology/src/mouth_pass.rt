// Pass 1 over the lent slice of region records.
ghost use Rattle.std.specs.Prelude.{◌≡◌, false, List, ℕ, ◌<◌, length};
ghost use Rattle.definitions.specs.Context.{Context};
ghost use Rattle.definitions.specs.RampMouths.{corners_near_lem};
ghost use Rattle.definitions.specs.RampMouths as definition;
ghost use Rattle.laws.specs.ListLaws.Options.{OnO};
ghost use Rattle.mouth_proposals.specs.Listed.{proposal_as};
ghost use Rattle.mouth_regions.specs.Inner.{places_of};
ghost use Rattle.mouth_selection.specs.Entries.{Known};
ghost use Rattle.mouth_selection.specs.Selecting.{BestOf};
ghost use Rattle.topology.specs.Mouths.{near_at, TakenIn, ProgressIn, stale_in, BetterNear, NearBest, NoMarks, Replaced};
ghost use Rattle.topology.specs.Mouths.{PassLocates, PassEntryAsked, PassNearAsked, PassRampAsked, PassReplaces};

use context::{PartitionContext, Region};
use definitions::limits::MAX_ENTRIES;
use geometry::boundaries::has_ramp;
use mouth_proposals::candidates::{Candidate, MouthProposal, push_ramp};
use mouth_proposals::regions::RegionMarks;
use mouth_regions::inner::{inner_region, places};
use mouth_regions::near::region_near;
use mouth_selection::bests::advance;
use mouth_selection::keys::is_better;
use mouth_selection::taken::Taken;

// Whether the region at place k of the rows of the mouth is near, or is the one outside.
fn place_near(
    records: &[Region],
    context: PartitionContext,
    proposal: MouthProposal,
    k: usize,
) -> bool
    requires located { (C : Context) × PassLocates C records.now context proposal }
    requires k_within { k < places_of context.starts.now proposal.mouth }
    ensures { (C : Context) →
        PassLocates C records.now context.entry proposal →
        result ≡ near_at C context.entry.pairs.now context.entry.starts.now proposal k }
{
    match inner_region(context, proposal, k) {
        Some(r) => {
            let region = records[r as usize - 1];
            region_near(region, context.boundaries, proposal)
        }
        None => true,
    }
}

// Whether each corner of each inner region of a proposal is near.
pub fn corners_near(records: &[Region], context: PartitionContext, proposal: MouthProposal) -> bool
    requires { (C : Context) × PassLocates C records.now context proposal }
    ensures { (C : Context) →
        PassLocates C records.now context.entry proposal →
        result ≡ corners_near_lem C (proposal_as C proposal) }
{
    (0..places(context, proposal.mouth)).all(|k| place_near(records, context, proposal, k))
}

// The better one of `best` and an entry, if that conflicts with none taken and has its inner regions near. These are asked only where it ranks before the best
// so far.
fn better_near(
    records: &[Region],
    context: PartitionContext,
    taken: &Taken,
    best: Option<Candidate>,
    entry: Candidate,
) -> Option<Candidate>
    requires { (C : Context) × (PassEntryAsked C records.now context taken.now.marks.now entry × OnO (Known C) best) }
    ensures better { (C : Context) (chosen : List definition.MouthProposal) →
        PassEntryAsked C records.now context.entry taken.now.marks.now entry →
        OnO (Known C) best →
        TakenIn C chosen taken.now →
        BetterNear C chosen best entry result }
    ensures left { stale_in context.entry taken.now best ≡ false → stale_in context.entry taken.now result ≡ false }
{
    let proposal = entry.proposal();
    if is_better(context.boundaries, entry, best)
        && taken.is_left(context, proposal)
        && corners_near(records, context, proposal)
    {
        return Some(entry);
    }
    best
}

// The least of the entries that conflict with none taken and have their inner regions near, the first of level ones.
pub fn best_near(
    records: &[Region],
    context: PartitionContext,
    taken: &Taken,
    entries: &[Candidate],
) -> Option<Candidate>
    requires asked { (C : Context) × ((chosen : List definition.MouthProposal)
        × (PassNearAsked C records.now context taken.now.marks.now entries.now (length entries.now)
        × TakenIn C chosen taken.now)) }
    ensures least { (C : Context) (chosen : List definition.MouthProposal) →
        PassNearAsked C records.now context.entry taken.now.marks.now entries.now (length entries.now) →
        TakenIn C chosen taken.now →
        NearBest C chosen entries.now (length entries.now) result }
    ensures left { stale_in context.entry taken.now result ≡ false }
{
    entries.iter().fold(None, |best, &entry| {
        better_near(records, context, taken, best, entry)
    })
}

// The best of ramp a: the least of its proposals that conflict with none taken.
// Never put into its caller: the list is made and cleared for each ramp that may have candidates, and for no other boundary.
#[inline(never)]
fn best_of_candidates(
    records: &[Region],
    context: PartitionContext,
    counts: &[u32],
    taken: &Taken,
    a: usize,
) -> Option<Candidate>
    requires { (C : Context) × ((chosen : List definition.MouthProposal) × (PassRampAsked C records.now context taken.now.marks.now counts.now a
        × TakenIn C chosen taken.now)) }
    ensures best { (C : Context) (chosen : List definition.MouthProposal) →
        PassRampAsked C records.now context.entry taken.now.marks.now counts.now a →
        TakenIn C chosen taken.now →
        BestOf C chosen a result }
    ensures left { stale_in context.entry taken.now result ≡ false }
{
    let mut entries = [Candidate::blank(); MAX_ENTRIES];
    let regions = RegionMarks {
        counts,
        marks: &*taken.marks,
    };
    let n = push_ramp(context, regions, &mut entries, a);
    best_near(records, context, taken, &entries[..n])
}

// The same of any boundary a: one that has no ramp, or is no full cut, has no candidates.
fn best_of_ramp(
    records: &[Region],
    context: PartitionContext,
    counts: &[u32],
    taken: &Taken,
    a: usize,
) -> Option<Candidate>
    requires { (C : Context) × ((chosen : List definition.MouthProposal) × (PassRampAsked C records.now context taken.now.marks.now counts.now a
        × TakenIn C chosen taken.now)) }
    ensures best { (C : Context) (chosen : List definition.MouthProposal) →
        PassRampAsked C records.now context.entry taken.now.marks.now counts.now a →
        TakenIn C chosen taken.now →
        BestOf C chosen a result }
    ensures left { stale_in context.entry taken.now result ≡ false }
{
    // Most boundaries of a map have no ramp, and so no candidates: for them no list is made.
    if !has_ramp(context.boundaries, a) || !context.full_cut(a) {
        return None;
    }
    best_of_candidates(records, context, counts, taken, a)
}

// Finds the best of each ramp.
fn find_bests(
    records: &[Region],
    context: PartitionContext,
    counts: &[u32],
    taken: &Taken,
    bests: &mut [Option<Candidate>; MAX_ENTRIES],
)
    requires { (C : Context) × ((marks₀ : List ℕ) × (PassReplaces C records.now context marks₀ counts.now
        × ProgressIn C taken.now bests.old 0)) }
    ensures { (C : Context) (marks₀ : List ℕ) →
        PassReplaces C records.now context.entry marks₀ counts.now →
        ProgressIn C taken.now bests.old 0 →
        ProgressIn C taken.now bests.new context.entry.count }
{
    for (a, best) in bests[..context.count].iter_mut().enumerate() {
        *best = best_of_ramp(records, context, counts, taken, a);
    }
}

// Pass 1: marks the boundaries that it removes. No boundary is marked before, and marks say no more than that a region is anchored. The best of each ramp is
// found once, and again where it conflicts with one taken and is the least of the bests.
// Never put into its caller, as the other two passes: of their lists only those of the pass that runs are on the stack.
#[inline(never)]
pub fn replace_ramp_mouths(
    records: &[Region],
    context: PartitionContext,
    marks: &mut [u16],
    counts: &[u32],
    removed: &mut [bool; MAX_ENTRIES],
)
    requires lists_show { (C : Context) × PassReplaces C records.now context marks.old counts.now }
    requires none_marked { NoMarks removed.old }
    ensures { (C : Context) →
        PassReplaces C records.now context.entry marks.old counts.now →
        Replaced C context.entry.count removed.new }
{
    let mut taken = Taken {
        marks,
        removed,
        ramp_ends: [false; MAX_ENTRIES],
    };
    let mut bests = [None; MAX_ENTRIES];
    find_bests(records, context, counts, &taken, &mut bests);
    while let Some(a) = advance(context, &mut taken, &mut bests) {
        bests[a] = best_of_ramp(records, context, counts, &taken, a);
    }
}

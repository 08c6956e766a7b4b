// The choice among proposals by the best of each ramp. A best that conflicts with one taken still ranks before all that is left of its ramp: it is found anew
// only where it is the least of the bests.
ghost use Rattle.std.specs.Prelude.{◌≡◌, true, List, ℕ, ◌*◌, ◌≤◌, ◌<◌, length, get_or, None};
ghost use Rattle.definitions.specs.Limits.{max_entries};
ghost use Rattle.definitions.specs.Context.{Context};
ghost use Rattle.definitions.specs.RampMouths.{MouthProposal};
ghost use Rattle.laws.specs.ListLaws.Options.{OnO};
ghost use Rattle.context.specs.Rows.{NamedRows};
ghost use Rattle.mouth_proposals.specs.Lent.{HasBoundaries};
ghost use Rattle.mouth_selection.specs.Held.{TakenState};
ghost use Rattle.mouth_selection.specs.Keys.{SafeKey, least_of};
ghost use Rattle.mouth_selection.specs.Selecting.{Lists, Renewed, NextBest, Bests, Progress, Advanced, is_stale, weight};

use crate::keys::better_of;
use crate::taken::Taken;
use context::PartitionContext;
use definitions::limits::MAX_ENTRIES;
use mouth_proposals::candidates::Candidate;

// After a proposal is taken: the bests of ramp ends that are taken are forgotten.
fn renew(
    ramp_ends: &[bool; MAX_ENTRIES],
    bests: &mut [Option<Candidate>; MAX_ENTRIES],
    count: usize,
)
    requires { count ≤ max_entries }
    ensures { Renewed ramp_ends.now bests.old bests.new count }
{
    // Kept: of the items of `iter_mut` that `zip` lends std says nothing behind the loop, and `bests[..count].iter_mut().enumerate()` would index `ramp_ends`.
    for (a, &is_used) in ramp_ends[..count].iter().enumerate() {
        if is_used {
            bests[a] = None;
        }
    }
}

// The least of the bests, the first of level ones.
fn least_best(boundaries: &[u64], bests: &[Option<Candidate>]) -> Option<Candidate>
    requires safe { (a : ℕ) → a < length bests.now → OnO (SafeKey boundaries.now) (get_or bests.now a None) }
    ensures { result ≡ least_of boundaries.now bests.now (length bests.now) }
{
    bests
        .iter()
        .fold(None, |least, &best| better_of(boundaries, least, best))
}

// The least of the bests; none where no proposal is left.
fn next_best(
    context: PartitionContext,
    taken: &Taken,
    bests: &[Option<Candidate>; MAX_ENTRIES],
) -> Option<Candidate>
    requires boundaries_room { HasBoundaries context }
    requires rows { NamedRows context.pairs.now context.starts.now context.count (length taken.now.marks.now) }
    requires safe { (a : ℕ) → a < context.count → OnO (SafeKey context.boundaries.now) (get_or bests.now a None) }
    ensures { (C : Context) (chosen : List MouthProposal) →
        Lists context.entry.boundaries.now context.entry.pairs.now context.entry.starts.now context.entry.count C →
        TakenState C chosen taken.now.removed.now taken.now.ramp_ends taken.now.marks.now →
        Bests C chosen bests.now context.entry.count →
        NextBest C chosen bests.now context.entry.count result }
{
    if taken.all_gone(context) {
        return None;
    }
    least_best(context.boundaries, &bests[..context.count])
}

// Takes proposals until the best of a ramp has to be found, and gives that ramp; none where no proposal is left. The bests of all ramps are known, now or from
// before.
pub fn advance(
    context: PartitionContext,
    taken: &mut Taken,
    bests: &mut [Option<Candidate>; MAX_ENTRIES],
) -> Option<usize>
    requires { (C : Context) × (Lists context.boundaries.now context.pairs.now context.starts.now context.count C
        × Progress C taken.old.marks.now taken.old.removed.now taken.old.ramp_ends bests.old context.count) }
    ensures same_marks { taken.new.marks.ghost_name ≡ taken.old.marks.ghost_name }
    ensures same_removed { taken.new.removed.ghost_name ≡ taken.old.removed.ghost_name }
    ensures long { length taken.new.marks.now ≡ length taken.old.marks.now }
    ensures weight { weight context.entry.pairs.now context.entry.starts.now context.entry.count taken.new.marks.now taken.new.removed.now
        taken.new.ramp_ends bests.new
        ≤ weight context.entry.pairs.now context.entry.starts.now context.entry.count taken.old.marks.now taken.old.removed.now
        taken.old.ramp_ends bests.old }
    ensures stale { OnO (λ a. (a < context.entry.count) × (is_stale context.entry.pairs.now context.entry.starts.now taken.new.marks.now taken.new.removed.now
        taken.new.ramp_ends (get_or bests.new a None) ≡ true)) result }
    ensures progress { (C : Context) →
        Lists context.entry.boundaries.now context.entry.pairs.now context.entry.starts.now context.entry.count C →
        Progress C taken.old.marks.now taken.old.removed.now taken.old.ramp_ends bests.old context.entry.count →
        Advanced C taken.new.marks.now taken.new.removed.now taken.new.ramp_ends bests.new context.entry.count result }
{
    while let Some(best) = next_best(context, &*taken, &*bests) {
        let proposal = best.proposal();
        if !taken.is_left(context, proposal) {
            return Some(proposal.ramp);
        }
        taken.take(context, proposal);
        renew(&taken.ramp_ends, &mut *bests, context.count);
    }
    None
}

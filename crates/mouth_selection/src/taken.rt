// What the proposals taken keep from others: a mouth, a ramp end, and regions.
ghost use Rattle.std.specs.Prelude.{◌≡◌, true, false, not, List, [], ◌∷◌, ◌++◌, ℕ, ◌+◌, ◌*◌, ◌%◌, ◌≤◌, ◌<◌, length, get_or, None};
ghost use Rattle.definitions.specs.Limits.{max_entries};
ghost use Rattle.definitions.specs.Context.{Context};
ghost use Rattle.definitions.specs.RampMouths.{proposals};
ghost use Rattle.definitions.specs.RampMouths as definition;
ghost use Rattle.context.specs.Shown.{ShownBoundaries, ShownPairs};
ghost use Rattle.context.specs.Rows.{NamedRows};
ghost use Rattle.geometry.specs.Placed.{HasBoundary};
ghost use Rattle.mouth_proposals.specs.Candidates.{Numbered};
ghost use Rattle.mouth_proposals.specs.Lent.{HasBoundaries};
ghost use Rattle.mouth_proposals.specs.Listed.{proposal_as};
ghost use Rattle.mouth_selection.specs.Entries.{SafeMouth};
ghost use Rattle.mouth_selection.specs.Held.{TakenState, is_refused, same_end_lem, end_mark, left_at};
ghost use Rattle.mouth_selection.specs.Rounds.{least_among};
ghost use Rattle.mouth_selection.specs.Selecting.{Gone, Lists};

use crate::held::{hold_proposal, proposal_held, region_full};
use context::PartitionContext;
use context::pairs::{Pair, row_at};
use definitions::limits::MAX_ENTRIES;
use geometry::boundaries::{has_ramp, ramp_at, same_kind};
use mouth_proposals::candidates::MouthProposal;

// The marks of regions, and which boundaries are removed or are a ramp end that is taken.
#[derive(Drop)]
pub struct Taken<'a> {
    pub marks: &'a mut [u16],
    pub removed: &'a mut [bool; MAX_ENTRIES],
    pub ramp_ends: [bool; MAX_ENTRIES],
}

// Whether boundaries i and j are the same end of the same ramp.
fn same_end(boundaries: &[u64], i: usize, j: usize) -> bool
    requires { HasBoundary boundaries.now i × HasBoundary boundaries.now j }
    ensures { result ≡ same_end_lem boundaries.now i j }
{
    (ramp_at(boundaries, i) == ramp_at(boundaries, j)) & same_kind(boundaries, i, j)
}

// Marks every boundary that is the ramp end of boundary a.
fn use_end(context: PartitionContext, ramp_ends: &mut [bool; MAX_ENTRIES], a: usize)
    requires boundaries_room { (context.count ≤ max_entries) × HasBoundaries context }
    requires a_within { a < context.count }
    ensures { (j : ℕ) → get_or ramp_ends.new j false ≡ end_mark context.entry.boundaries.now a context.entry.count ramp_ends.old j }
{
    for (j, is_used) in ramp_ends[..context.count].iter_mut().enumerate() {
        *is_used |= same_end(context.boundaries, a, j);
    }
}

impl Taken<'_> {
    // Whether the proposal conflicts with none taken.
    pub fn is_left(&self, context: PartitionContext, proposal: MouthProposal) -> bool
        requires safe { SafeMouth context.pairs.now context.starts.now self.now.marks.now proposal.mouth proposal.outer }
        requires ramp_within { proposal.ramp < max_entries }
        ensures marked { result ≡ left_at context.entry.pairs.now context.entry.starts.now self.now.marks.now self.now.removed.now self.now.ramp_ends
            proposal }
        ensures left { (C : Context) (taken : List definition.MouthProposal) →
            ShownPairs C context.entry.pairs.now context.entry.starts.now →
            TakenState C taken self.now.removed.now self.now.ramp_ends self.now.marks.now →
            proposal.mouth < C.count →
            proposal.ramp < C.count →
            Numbered C.regions proposal.outer →
            result ≡ not (is_refused C taken (proposal_as C proposal)) }
    {
        let removed = &*self.removed;
        let is_used = removed[proposal.mouth] | self.ramp_ends[proposal.ramp];
        !is_used && !proposal_held(context, &*self.marks, proposal)
    }

    // Takes the proposal.
    pub fn take(&mut self, context: PartitionContext, proposal: MouthProposal)
        requires boundaries_room { (context.count ≤ max_entries) × HasBoundaries context }
        requires ramp_within { proposal.ramp < context.count }
        requires safe { SafeMouth context.pairs.now context.starts.now self.old.marks.now proposal.mouth proposal.outer }
        ensures same_marks { self.new.marks.ghost_name ≡ self.old.marks.ghost_name }
        ensures same_removed { self.new.removed.ghost_name ≡ self.old.removed.ghost_name }
        ensures taken { (C : Context) (taken : List definition.MouthProposal) →
            C.count ≡ context.entry.count →
            ShownBoundaries C context.entry.boundaries.now →
            ShownPairs C context.entry.pairs.now context.entry.starts.now →
            C.regions ≤ length self.old.marks.now →
            TakenState C taken self.old.removed.now self.old.ramp_ends self.old.marks.now →
            proposal.mouth < C.count →
            Numbered C.regions proposal.outer →
            is_refused C taken (proposal_as C proposal) ≡ false →
            TakenState C (taken ++ (proposal_as C proposal ∷ []))
            self.new.removed.now self.new.ramp_ends self.new.marks.now }
        ensures long { length self.new.marks.now ≡ length self.old.marks.now }
        ensures odd_parts { (i : ℕ) → i < length self.old.marks.now → get_or self.new.marks.now i 0 % 2 ≡ get_or self.old.marks.now i 0 % 2 }
    {
        let removed = &mut *self.removed;
        removed[proposal.mouth] = true;
        use_end(context, &mut self.ramp_ends, proposal.ramp);
        hold_proposal(context, &mut *self.marks, proposal);
    }

    // Whether boundary m can be the mouth of no proposal any more: it has a ramp, or it is removed, or a region of its first row is held so that nothing else
    // may name it.
    fn is_gone(&self, context: PartitionContext, m: usize) -> bool
        requires boundaries_room { HasBoundaries context }
        requires rows { NamedRows context.pairs.now context.starts.now context.count (length self.now.marks.now) }
        requires m_within { m < context.count }
        ensures { (C : Context) (taken : List definition.MouthProposal) →
            ShownBoundaries C context.entry.boundaries.now →
            ShownPairs C context.entry.pairs.now context.entry.starts.now →
            TakenState C taken self.now.removed.now self.now.ramp_ends self.now.marks.now →
            m < C.count →
            result ≡ true →
            Gone C taken m }
    {
        let removed = &*self.removed;
        if has_ramp(context.boundaries, m) | removed[m] {
            return true;
        }
        let rows = context.rows(m);
        if rows.is_empty() {
            return false;
        }
        let Pair { lo, hi } = row_at(context.pairs, rows.start);
        region_full(&*self.marks, lo) | region_full(&*self.marks, hi)
    }

    // Whether no boundary can be the mouth of a proposal any more.
    pub fn all_gone(&self, context: PartitionContext) -> bool
        requires boundaries_room { HasBoundaries context }
        requires rows { NamedRows context.pairs.now context.starts.now context.count (length self.now.marks.now) }
        ensures { (C : Context) (taken : List definition.MouthProposal) →
            Lists context.entry.boundaries.now context.entry.pairs.now context.entry.starts.now context.entry.count C →
            TakenState C taken self.now.removed.now self.now.ramp_ends self.now.marks.now →
            result ≡ true →
            None ≡ least_among C taken (proposals C) }
    {
        (0..context.count).all(|m| self.is_gone(context, m))
    }
}

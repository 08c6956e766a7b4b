// Regions that taken proposals hold. Half of a region's mark says how: the number of its `Hold`, and 0 where none names it. The odd part says that the region
// is anchored, and stays.
ghost use Rattle.std.specs.Prelude.{◌≡◌, [], ◌∷◌, ℕ, ◌+◌, ◌≤◌, ◌<◌, length, leb};
ghost use Rattle.definitions.specs.MouthShapes.{regions_of};
ghost use Rattle.context.specs.Shown.{pair_at, pairs_between};
ghost use Rattle.context.specs.Rows.{NamedRow};
ghost use Rattle.mouth_proposals.specs.Rows.{rows_of};
ghost use Rattle.mouth_proposals.specs.Candidates.{Numbered};
ghost use Rattle.mouth_selection.specs.Entries.{SafeMouth};
ghost use Rattle.mouth_selection.specs.Held.{HeldAs, hold_at_lem, hold_number};
ghost use Rattle.mouth_selection.specs.Held.{outer_hold, outer_held, inner_held, row_held, held_at, mark_held, mark_outer, mark_inner};

use context::PartitionContext;
use context::pairs::{Pair, row_at};
use mouth_proposals::candidates::MouthProposal;
use mouth_proposals::mouths::MouthKind;
use std::ops::Range;

// How a proposal holds a region: other mouths may lie outside it too, or nothing else may name it.
// Kept: a region's mark is a number of the list that C lends, whose lowest bit says that the region is anchored, so that it has room for the number of a hold,
// and not for an `Option<Hold>`.
#[derive(Clone, Copy, PartialEq, Eq)]
enum Hold {
    Shared = 1,
    Alone = 2,
}

impl Hold {
    fn number(self) -> u16
        ensures { result ≡ hold_number self }
    {
        self as u16
    }

    // How a proposal of this kind holds the region outside. Its inner regions it holds alone.
    fn outside(kind: MouthKind) -> Hold
        ensures { hold_number result ≡ outer_hold kind }
    {
        if kind.is_triangular() {
            Hold::Alone
        } else {
            Hold::Shared
        }
    }
}

// How region r is held, if it is.
fn hold_of(marks: &[u16], r: u32) -> Option<Hold>
    requires { (1 ≤ r) × (r ≤ length marks.now) }
    ensures { HeldAs (hold_at_lem marks.now r) result }
{
    match marks[r as usize - 1] / 2 {
        0 => None,
        1 => Some(Hold::Shared),
        _ => Some(Hold::Alone),
    }
}

// Whether region r is held so that it cannot be held in this way too: by two that share it, it can.
fn is_held(marks: &[u16], r: u32, hold: Hold) -> bool
    requires { (1 ≤ r) × (r ≤ length marks.now) }
    ensures { result ≡ leb 3 (hold_at_lem marks.now r + hold_number hold) }
{
    match hold_of(marks, r) {
        None => false,
        Some(Hold::Shared) => hold == Hold::Alone,
        Some(Hold::Alone) => true,
    }
}

// Whether region r is held so that nothing else may name it.
pub fn region_full(marks: &[u16], r: u32) -> bool
    requires { (1 ≤ r) × (r ≤ length marks.now) }
    ensures { result ≡ leb 2 (hold_at_lem marks.now r) }
{
    hold_of(marks, r) == Some(Hold::Alone)
}

fn outer_held(marks: &[u16], outer: Option<u32>, hold: Hold) -> bool
    requires { Numbered (length marks.now) outer }
    ensures { result ≡ outer_held marks.now outer (hold_number hold) }
{
    outer.is_some_and(|r| is_held(marks, r, hold))
}

// Whether region r is held, and is not the one outside.
fn inner_region_held(marks: &[u16], r: u32, outer: Option<u32>) -> bool
    requires { (1 ≤ r) × (r ≤ length marks.now) }
    ensures { result ≡ inner_held marks.now outer r }
{
    (outer != Some(r)) & is_held(marks, r, Hold::Alone)
}

// Whether a row names a region, other than the one outside, that is held.
fn row_held(pairs: &[u32], marks: &[u16], k: usize, outer: Option<u32>) -> bool
    requires { NamedRow pairs.now (length marks.now) k }
    ensures { result ≡ row_held marks.now outer (pair_at pairs.now k) }
{
    let Pair { lo, hi } = row_at(pairs, k);
    inner_region_held(marks, lo, outer) | inner_region_held(marks, hi, outer)
}

// Whether taken proposals hold a region of this one.
pub fn proposal_held(context: PartitionContext, marks: &[u16], proposal: MouthProposal) -> bool
    requires { SafeMouth context.pairs.now context.starts.now marks.now proposal.mouth proposal.outer }
    ensures { result ≡ held_at context.entry.pairs.now context.entry.starts.now marks.now proposal.mouth proposal.outer proposal.kind }
{
    let MouthProposal {
        mouth,
        outer,
        kind,
        ..
    } = proposal;
    outer_held(marks, outer, Hold::outside(kind))
        || context
            .rows(mouth)
            .any(|k| row_held(context.pairs, marks, k, outer))
}

fn hold_region(marks: &mut [u16], r: u32, hold: Hold)
    requires { (1 ≤ r) × (r ≤ length marks.old) }
    ensures { marks.new ≡ mark_held (hold_number hold) marks.old r }
{
    let k = r as usize - 1;
    marks[k] = marks[k] % 2 + 2 * hold.number();
}

fn hold_inner_region(marks: &mut [u16], r: u32, outer: Option<u32>)
    requires { (1 ≤ r) × (r ≤ length marks.old) }
    ensures { marks.new ≡ mark_inner outer marks.old (r ∷ []) }
{
    if outer != Some(r) {
        hold_region(&mut *marks, r, Hold::Alone);
    }
}

fn hold_row(marks: &mut [u16], p: Pair, outer: Option<u32>)
    requires lo_named { (1 ≤ p.lo) × (p.lo ≤ length marks.old) }
    requires hi_named { (1 ≤ p.hi) × (p.hi ≤ length marks.old) }
    ensures { marks.new ≡ mark_inner outer marks.old (p.lo ∷ p.hi ∷ []) }
{
    hold_inner_region(&mut *marks, p.lo, outer);
    hold_inner_region(&mut *marks, p.hi, outer);
}

// Holds the regions of these rows, other than the one outside.
fn hold_inner(pairs: &[u32], marks: &mut [u16], rows: Range<usize>, outer: Option<u32>)
    requires ordered { rows.start ≤ rows.end }
    requires named_rows { (k : ℕ) → rows.start ≤ k → k < rows.end → NamedRow pairs.now (length marks.old) k }
    ensures { marks.new ≡ mark_inner outer marks.old (regions_of (pairs_between pairs.now rows.start rows.end)) }
{
    for k in rows {
        hold_row(&mut *marks, row_at(pairs, k), outer);
    }
}

fn hold_outer(marks: &mut [u16], outer: Option<u32>, kind: MouthKind)
    requires { Numbered (length marks.old) outer }
    ensures { marks.new ≡ mark_outer (outer_hold kind) outer marks.old }
{
    if let Some(r) = outer {
        hold_region(&mut *marks, r, Hold::outside(kind));
    }
}

// Holds the regions of a proposal.
pub fn hold_proposal(context: PartitionContext, marks: &mut [u16], proposal: MouthProposal)
    requires { SafeMouth context.pairs.now context.starts.now marks.old proposal.mouth proposal.outer }
    ensures { marks.new ≡ mark_inner proposal.outer
        (mark_outer (outer_hold proposal.kind) proposal.outer marks.old)
        (regions_of (rows_of context.entry.pairs.now context.entry.starts.now proposal.mouth)) }
{
    let MouthProposal {
        mouth,
        outer,
        kind,
        ..
    } = proposal;
    hold_outer(&mut *marks, outer, kind);
    hold_inner(context.pairs, &mut *marks, context.rows(mouth), outer);
}

// The inner regions of a proposal, one by one: `inner-all` of proofs/InnerWalk.antt says that a walk over the places asks all of them.
ghost use Rattle.std.specs.Prelude.{◌≡◌, ◌<◌};
ghost use Rattle.context.specs.Rows.{Stretch};
ghost use Rattle.mouth_regions.specs.Inner.{places_of, inner_at};

use context::PartitionContext;
use mouth_proposals::candidates::MouthProposal;
use region_pairs::{REGIONS_PER_PAIR, region_at};
use std::ops::Range;

// How many regions the rows of mouth m name, each as often as it is named.
pub fn places(context: PartitionContext, m: usize) -> usize
    requires { Stretch context.pairs.now context.starts.now m }
    ensures { result ≡ places_of context.entry.starts.now m }
{
    let Range { start, end } = context.rows(m);
    REGIONS_PER_PAIR * (end - start)
}

// The region at place k of the rows of the proposal's mouth, if it is not the region outside.
// Kept: by place, two to a row, so that a step of a walk asks of one region's record. By row, with `row_at`, this would give two regions of which either may be
// the one outside, and the caller would ask the same of both.
pub fn inner_region(context: PartitionContext, proposal: MouthProposal, k: usize) -> Option<u32>
    requires stretch { Stretch context.pairs.now context.starts.now proposal.mouth }
    requires k_within { k < places_of context.starts.now proposal.mouth }
    ensures { result ≡ inner_at context.entry.pairs.now context.entry.starts.now proposal.mouth proposal.outer k }
{
    let first = context.rows(proposal.mouth).start;
    let r = region_at(context.pairs, REGIONS_PER_PAIR * first + k);
    (Some(r) != proposal.outer).then_some(r)
}

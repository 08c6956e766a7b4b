// Whether an inner region of a mouth lies near.
ghost use Rattle.std.specs.Prelude.{◌≡◌, ◌<◌};
ghost use Rattle.definitions.specs.Context.{Context};
ghost use Rattle.laws.specs.FloatLaws.Pixels.{PixelRegion};
ghost use Rattle.laws.specs.FloatLaws.DistanceRange.{DistanceInRange};
ghost use Rattle.context.specs.Shown.{ShownBoundaries};
ghost use Rattle.context.specs.Records.{record_of};
ghost use Rattle.geometry.specs.Forms.{point_form};
ghost use Rattle.mouth_proposals.specs.Candidates.{is_broad};
ghost use Rattle.mouth_proposals.specs.Lent.{Placed};
ghost use Rattle.mouth_regions.specs.Near.{corner_near, region_near};

use context::{MAX_APPROACH_RADIUS, Region};
use geometry::Point;
use geometry::boundaries::center_of;
use geometry::points::within_distance;
use mouth_proposals::candidates::MouthProposal;

fn corner_near(ramp: Point, mouth: Point, broad: bool, corner: Point) -> bool
    ensures { DistanceInRange (point_form corner) (point_form ramp) →
        DistanceInRange (point_form corner) (point_form mouth) →
        result ≡ corner_near (point_form ramp) (point_form mouth) broad (point_form corner) }
{
    within_distance(corner, ramp, MAX_APPROACH_RADIUS)
        || (broad && within_distance(corner, mouth, MAX_APPROACH_RADIUS))
}

// Whether each corner of the region is near the ramp's centre or, for a broad two-port approach, the mouth's.
pub fn region_near(region: Region, boundaries: &[u64], proposal: MouthProposal) -> bool
    requires { Placed boundaries.now proposal.mouth × Placed boundaries.now proposal.ramp }
    ensures { (C : Context) →
        ShownBoundaries C boundaries.now →
        proposal.mouth < C.count →
        proposal.ramp < C.count →
        PixelRegion (record_of region) →
        result ≡ region_near C proposal.mouth proposal.ramp (is_broad proposal.kind) (record_of region) }
{
    let ramp = center_of(boundaries, proposal.ramp);
    let mouth = center_of(boundaries, proposal.mouth);
    let broad = proposal.kind.is_broad();
    region
        .corners()
        .iter()
        .all(|&corner| corner_near(ramp, mouth, broad, corner))
}

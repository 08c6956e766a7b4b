// The order in which proposals are taken.
ghost use Rattle.std.specs.Prelude.{◌≡◌, ◌*◌, ◌+◌, ◌<◌, length};
ghost use Rattle.laws.specs.ListLaws.Options.{OnO};
ghost use Rattle.definitions.specs.Limits.{numbers_per_boundary};
ghost use Rattle.definitions.specs.Sort.{list_lt};
ghost use Rattle.mouth_selection.specs.Keys.{SafeKey, numbers_of, key_at, is_better, better_of};

use geometry::Segment;
use geometry::boundaries::segment_of;
use geometry::endpoints::canonical;
use mouth_proposals::candidates::Candidate;

// What entries are ranked by: the separation, then the endpoints of the mouth, then those of the ramp.
#[derive(Clone, Copy, PartialEq, Eq, PartialOrd, Ord)]
struct RankKey {
    separation: u64,
    mouth: Segment,
    ramp: Segment,
}

impl RankKey {
    fn of(boundaries: &[u64], separation: u64, m: usize, a: usize) -> Self
        requires { (numbers_per_boundary * m + 8 < length boundaries.now) × (numbers_per_boundary * a + 8 < length boundaries.now) }
        ensures { numbers_of result ≡ key_at boundaries.now separation m a }
    {
        Self {
            separation,
            mouth: canonical(segment_of(boundaries, m)),
            ramp: canonical(segment_of(boundaries, a)),
        }
    }
}

// Whether the proposal of separation `left`, mouth m and ramp a ranks before that of `right`, k and b.
pub fn ranks_before(
    boundaries: &[u64],
    left: u64,
    m: usize,
    a: usize,
    right: u64,
    k: usize,
    b: usize,
) -> bool
    requires first_boundaries { (numbers_per_boundary * m + 8 < length boundaries.now) × (numbers_per_boundary * a + 8 < length boundaries.now) }
    requires second_boundaries { (numbers_per_boundary * k + 8 < length boundaries.now) × (numbers_per_boundary * b + 8 < length boundaries.now) }
    ensures { result ≡ list_lt (key_at boundaries.now left m a) (key_at boundaries.now right k b) }
{
    // Most separations differ, and then no endpoint is read.
    if left != right {
        return left < right;
    }
    RankKey::of(boundaries, left, m, a) < RankKey::of(boundaries, right, k, b)
}

// Whether an entry ranks before the best so far, or there is none.
pub fn is_better(boundaries: &[u64], entry: Candidate, best: Option<Candidate>) -> bool
    requires { SafeKey boundaries.now entry × OnO (SafeKey boundaries.now) best }
    ensures { result ≡ is_better boundaries.now entry best }
{
    best.is_none_or(|other| {
        let (m, a) = (entry.mouth as usize, entry.ramp as usize);
        let (k, b) = (other.mouth as usize, other.ramp as usize);
        ranks_before(boundaries, entry.separation, m, a, other.separation, k, b)
    })
}

// The better of two, of level ones the earlier.
pub(crate) fn better_of(
    boundaries: &[u64],
    best: Option<Candidate>,
    later: Option<Candidate>,
) -> Option<Candidate>
    requires { OnO (SafeKey boundaries.now) best × OnO (SafeKey boundaries.now) later }
    ensures { result ≡ better_of boundaries.now best later }
{
    match later {
        Some(entry) if is_better(boundaries, entry, best) => later,
        _ => best,
    }
}

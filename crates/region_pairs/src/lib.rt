// A pair of regions, and the rows of pairs as a lent list holds them: span, lesser region, greater region.

#![tactic(auto)]

ghost use Rattle.std.specs.Prelude.{◌≡◌, ◌+◌, ◌*◌, ◌/◌, ◌<◌, length};
ghost use Rattle.definitions.specs.Limits.{numbers_per_pair};
ghost use Rattle.definitions.specs.Grid.{contains};
ghost use Rattle.definitions.specs.Context.{other_region};
ghost use Rattle.laws.specs.RegionLaws.PairRows.{pair_at};
ghost use Rattle.region_pairs.specs.Forms.{pair_form, region_at};

use definitions::limits::NUMBERS_PER_PAIR;

pub const REGIONS_PER_PAIR: usize = 2;

// Two regions, the lesser first. Pairs compare by their first regions, then by their second.
#[derive(Clone, Copy, PartialEq, Eq, PartialOrd, Ord)]
pub struct Pair {
    pub lo: u32,
    pub hi: u32,
}

impl Pair {
    pub fn contains(self, r: u32) -> bool
        ensures { result ≡ contains r (pair_form self) }
    {
        (self.lo == r) | (self.hi == r)
    }

    // The region of the pair that is not r; the lesser where r is neither.
    pub fn other(self, r: u32) -> u32
        ensures { result ≡ other_region r (pair_form self) }
    {
        if self.lo == r { self.hi } else { self.lo }
    }
}

// The pair of row k.
pub fn row_at(pairs: &[u32], k: usize) -> Pair
    requires { numbers_per_pair * k + 2 < length pairs.now }
    ensures { pair_form result ≡ pair_at pairs.now k }
{
    Pair {
        lo: pairs[NUMBERS_PER_PAIR * k + 1],
        hi: pairs[NUMBERS_PER_PAIR * k + 2],
    }
}

// The region that stands at place k of the rows: each row has two places, that of the lesser region and that of the greater.
pub fn region_at(pairs: &[u32], k: usize) -> u32
    requires { numbers_per_pair * (k / 2) + 2 < length pairs.now }
    ensures { result ≡ region_at pairs.now k }
{
    pairs[NUMBERS_PER_PAIR * (k / REGIONS_PER_PAIR) + 1 + k % REGIONS_PER_PAIR]
}

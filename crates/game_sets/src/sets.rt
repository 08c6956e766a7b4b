// Sets of regions: bit i of a number is region i + 1.
// Kept: plain numbers, as the definitions have them in lists of sets; a struct around the number would be unwrapped in each contract that names such a list.
ghost use Rattle.std.specs.Prelude.{◌≡◌, ◌&&◌, ◌||◌, ℕ, ◌<◌, eqb};
ghost use Rattle.definitions.specs.RegionRecord.{has_bit};
ghost use Rattle.game_sets.specs.Words.{do_meet};

// Whether the set has region i + 1.
pub fn has(set: u32, i: usize) -> bool
    requires { i < 32 }
    ensures { result ≡ has_bit set i }
{
    (set >> i) % 2 == 1
}

// The set with region i + 1.
pub fn with(set: u32, i: usize) -> u32
    requires { i < 32 }
    ensures { (j : ℕ) → j < 32 → has_bit result j ≡ (has_bit set j || eqb j i) }
{
    set | (1 << i)
}

// Whether the two have a region in common.
pub fn meet(a: u32, b: u32) -> bool
    ensures { result ≡ do_meet a b }
{
    a & b != 0
}

// Where a step leads from each region of a graph: along an edge, or nowhere else.
ghost use Rattle.std.specs.Prelude.{◌≡◌, ◌&&◌, ◌||◌, ℕ, suc, ◌≤◌, ◌<◌, eqb};
ghost use Rattle.game.specs.Game.{is_region};
ghost use Rattle.game.specs.Graph.{joins};
ghost use Rattle.game_sets.specs.Words.{bit_at, Near};
ghost use Rattle.game_search.specs.Edges.{last_two};

use game_sets::board::MAX_REGIONS;
use game_sets::sets::with;

// Whether d is a region.
fn is_region(regions: usize, d: u32) -> bool
    ensures { result ≡ is_region regions d }
{
    (1..=regions).contains(&(d as usize))
}

// A step from region a + 1 to region b + 1.
fn join(near: &mut [u32; MAX_REGIONS], a: usize, b: usize)
    requires { (a < 32) × (b < 32) }
    ensures { (i j : ℕ) → i < 32 → j < 32 → bit_at near.new i j ≡ (bit_at near.old i j || (eqb i a && eqb j b)) }
{
    near[a] = with(near[a], b);
}

// Steps both ways between the regions of a pair, if both are regions.
fn join_pair(near: &mut [u32; MAX_REGIONS], regions: usize, p: u32, q: u32)
    requires { regions ≤ 32 }
    ensures { (i j : ℕ) → i < 32 → j < 32 → bit_at near.new i j
        ≡ (bit_at near.old i j || (is_region regions p && is_region regions q && joins p q (suc i) (suc j))) }
{
    if !(is_region(regions, p) & is_region(regions, q)) {
        return;
    }
    let a = p as usize - 1;
    let b = q as usize - 1;
    join(near, a, b);
    join(near, b, a);
}

// Every region may be stayed on.
fn selves() -> [u32; MAX_REGIONS]
    ensures { (i j : ℕ) → i < 32 → j < 32 → bit_at result i j ≡ eqb j i }
{
    let mut near = [0; MAX_REGIONS];
    for (i, set) in near.iter_mut().enumerate() {
        *set = 1 << i;
    }
    near
}

// The steps of the graph whose edges are the last two numbers of each list.
pub fn find_neighbours<const N: usize>(regions: usize, edges: &[[u32; N]]) -> [u32; MAX_REGIONS]
    requires { (regions ≤ 32) × (2 ≤ N) }
    ensures { (goal : ℕ) → Near (last_two N regions edges.now goal) result }
{
    let mut near = selves();
    for edge in edges {
        join_pair(&mut near, regions, edge[N - 2], edge[N - 1]);
    }
    near
}

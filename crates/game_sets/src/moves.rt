// Which regions of the runner a sweep finds for one region of the guard, with either to move.
ghost use Rattle.std.specs.Prelude.{◌≡◌, ℕ, ◌≤◌, ◌<◌};
ghost use Rattle.definitions.specs.RegionRecord.{has_bit};
ghost use Rattle.game_sets.specs.Words.{runner_bit, guard_bit};

use crate::board::{Board, MAX_REGIONS};
use crate::sets::{has, meet, with};

impl Board {
    // Whether the runner on r + 1, himself to move and the guard on g + 1, has won or gets into the set.
    fn runner_wins(&self, set: u32, g: usize, r: usize) -> bool
        requires { r < 32 }
        ensures { result ≡ runner_bit self.now.near self.now.goal set g r }
    {
        (r != g) & ((r == self.goal) | meet(self.near[r], set))
    }

    // The runner's regions from which he does.
    pub fn runner_row(&self, set: u32, g: usize) -> u32
        requires { self.now.regions ≤ 32 }
        ensures { (j : ℕ) → j < self.now.regions → has_bit result j ≡ runner_bit self.now.near self.now.goal set g j }
    {
        let mut row = 0;
        for r in 0..self.regions {
            if self.runner_wins(set, g, r) {
                row = with(row, r);
            }
        }
        row
    }

    // The runner's regions that are in every set that the guard on g + 1 can go to, and the goal where the guard is not.
    pub fn guard_row(&self, sets: &[u32; MAX_REGIONS], g: usize) -> u32
        requires { (self.now.regions ≤ 32) × (self.now.goal < 32) × (g < 32) }
        ensures { (j : ℕ) → j < 32 → has_bit result j ≡ guard_bit self.now.near self.now.regions self.now.goal sets.now g j }
    {
        let mut row = u32::MAX;
        for (d, &set) in sets[..self.regions].iter().enumerate() {
            if has(self.near[g], d) {
                row &= set;
            }
        }
        if g == self.goal {
            return row;
        }
        with(row, self.goal)
    }
}

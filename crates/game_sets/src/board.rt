// The board of a game in code, where regions count from 0.

// How many regions a game has at most.
pub const MAX_REGIONS: usize = 32;

// How many places there are for a region of the runner: each region of the guard, with either to move.
pub const RANKS_PER_RUNNER: usize = 2 * MAX_REGIONS;

// How many places a game has at most, and so how many ranks.
pub const RANKS: usize = RANKS_PER_RUNNER * MAX_REGIONS;

// From each region the set of those where a step leads, how many regions there are, and the goal.
#[derive(Clone, Copy)]
pub struct Board {
    pub near: [u32; MAX_REGIONS],
    pub regions: usize,
    pub goal: usize,
}

// The search backwards from the won places, by sweeps: for each region of the guard and either to move, the set of the runner's regions from which the runner
// wins. A place that a sweep finds gets one more than the sweep's moves as its rank; the sweeps end when one finds nothing.

#![tactic(auto)]

pub mod neighbours;

ghost use Rattle.std.specs.Prelude.{◌≡◌, ◌&&◌, cond, ℕ, ◌/◌, ◌%◌, ◌<◌, eqb, get_or};
ghost use Rattle.game.specs.Game.{Game};
ghost use Rattle.game_sets.specs.Words.{Plays};
ghost use Rattle.game_search.specs.Words.{Sized, Swept, set_for, is_new, ranked_by, Ranked};

use game_sets::board::{Board, MAX_REGIONS, RANKS, RANKS_PER_RUNNER};
use game_sets::sets::has;

// One more than `sweeps` of the definitions for 32 regions, which is two places for each two of 33 numbers, since 0 is counted too, and one: the first sweep
// from the empty sets finds what is won without a move, which the definitions begin with.
const MAX_SWEEPS: u32 = 2180;

// Of each region of the guard the runner's regions from which he wins, where the runner is to move and where the guard is.
#[derive(Clone, Copy, PartialEq, Eq)]
struct Won {
    runner: [u32; MAX_REGIONS],
    guard: [u32; MAX_REGIONS],
}

// For each region of the guard, one move more.
fn sweep(board: &Board, won: &Won) -> Won
    requires { Sized board.now.regions board.now.goal }
    ensures { Swept board.now.near board.now.regions board.now.goal won.now.runner won.now.guard result.runner result.guard }
{
    let mut next = *won;
    // Kept: two lists are written at g; of what `zip` of two `iter_mut` lends, a proof knows no element behind the loop.
    for g in 0..board.regions {
        next.runner[g] = board.runner_row(won.guard[g], g);
        next.guard[g] = board.guard_row(&won.runner, g);
    }
    next
}

// The set in which the place of rank i is found.
fn set_for(won: &Won, i: usize) -> u32
    ensures { result ≡ set_for won.now.runner won.now.guard i }
{
    let g = i % RANKS_PER_RUNNER / 2;
    if i % 2 == 0 {
        return won.runner[g];
    }
    won.guard[g]
}

// The rank of a place that is in the new set and not in the old one; of another the one that it had.
fn next_rank(old: u32, new: u32, r: usize, had: u32, rank: u32) -> u32
    requires { r < 32 }
    ensures { result ≡ cond (is_new old new r) rank had }
{
    if has(new, r) & !has(old, r) {
        return rank;
    }
    had
}

// Ranks the places of one guard's region and turn that are in the new set and not in the old one. `at` is where the first of them has its rank.
fn put_row(old: u32, new: u32, at: usize, rank: u32, ranks: &mut [u32; RANKS])
    requires { at < 64 }
    ensures { (i : ℕ) → i < 2048 → get_or ranks.new i 0
        ≡ cond (eqb (i % 64) at && is_new old new (i / 64)) rank (get_or ranks.old i 0) }
{
    if old == new {
        return;
    }
    for r in 0..MAX_REGIONS {
        let i = RANKS_PER_RUNNER * r + at;
        ranks[i] = next_rank(old, new, r, ranks[i], rank);
    }
}

// Ranks the places that a sweep found: those in its sets, `next`, and not in those before.
fn put_ranks(won: &Won, next: &Won, rank: u32, ranks: &mut [u32; RANKS])
    ensures { (i : ℕ) → i < 2048 → get_or ranks.new i 0
        ≡ ranked_by won.now.runner won.now.guard next.now.runner next.now.guard rank ranks.old i }
{
    for at in 0..RANKS_PER_RUNNER {
        put_row(set_for(won, at), set_for(next, at), at, rank, ranks);
    }
}

// The ranks of all places.
// Kept: 0 for a place that is not won, as `rank_of` of the definitions has it; Options would be turned into these numbers in each contract.
pub fn search(board: &Board) -> [u32; RANKS]
    requires { Sized board.now.regions board.now.goal }
    ensures { (G : Game) → Plays board.now.near board.now.regions board.now.goal G → Ranked G result }
{
    let mut ranks = [0; RANKS];
    let mut won = Won {
        runner: [0; MAX_REGIONS],
        guard: [0; MAX_REGIONS],
    };
    // Kept: the bound shows that the search ends; a `while` for the sets that differ would ask the same bound as its measure.
    for moves in 0..MAX_SWEEPS {
        let next = sweep(board, &won);
        if next == won {
            return ranks;
        }
        put_ranks(&won, &next, moves + 1, &mut ranks);
        won = next;
    }
    ranks
}

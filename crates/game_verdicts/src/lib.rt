// Verdicts, read from the ranks.

#![tactic(auto)]

ghost use Rattle.std.specs.Prelude.{◌≡◌, cond, [], ◌∷◌, ℕ, suc, ◌+◌, ◌-◌, ◌≤◌, ◌<◌, ltb, get_or, length};
ghost use Rattle.std.proofs.lemmas.List.Edits.{sets};
ghost use Rattle.game.specs.Game.{Game};
ghost use Rattle.game.specs.Search.{least_below};
ghost use Rattle.game.specs.Ranks.{serves_by, verdict_by};
ghost use Rattle.game.specs.Graph.{place_at, numbers_of, place_count};
ghost use Rattle.game_sets.specs.Words.{Plays};
ghost use Rattle.game_search.specs.Words.{rank_place, rank_at};
ghost use Rattle.game_verdicts.specs.Words.{verdicts_by, AtPlace, Served, Fits};
ghost use Rattle.game_verdicts.specs.Forms.{is_runner, winner_number, place_of, number_in, numbers_in};

use game_sets::board::{Board, RANKS, RANKS_PER_RUNNER};
use game_sets::sets::has;

// Who wins, the moves and the region.
pub const NUMBERS_PER_VERDICT: usize = 3;

// Each with its number in a verdict.
#[derive(Clone, Copy, PartialEq, Eq)]
pub enum Side {
    Runner = 1,
    Guard = 2,
}

// Who wins; the moves; the region to go to, if the one to move can force a win.
#[derive(Clone, Copy)]
pub struct Verdict {
    pub winner: Side,
    pub moves: u32,
    pub region: Option<u32>,
}

// The runner on region `runner` + 1, the guard on `guard` + 1, and who is to move.
#[derive(Clone, Copy)]
struct Place {
    runner: usize,
    guard: usize,
    side: Side,
}

impl Side {
    // Who is found to win by the rank.
    fn winner(rank: u32) -> Side
        ensures { is_runner result ≡ ltb 0 rank }
    {
        if 0 < rank { Side::Runner } else { Side::Guard }
    }

    // 1 for the runner and 2 for the guard.
    fn number(self) -> u32
        ensures { result ≡ winner_number self }
    {
        self as u32
    }
}

// The board of a game and the ranks of its places.
#[derive(Clone, Copy)]
struct RankedBoard<'a> {
    board: &'a Board,
    ranks: &'a [u32; RANKS],
}

impl RankedBoard<'_> {
    // The rank of a place.
    fn rank(self, place: Place) -> u32
        requires { (place.runner < 32) × (place.guard < 32) }
        ensures { result ≡ get_or self.entry.ranks.now (rank_place place.runner place.guard (is_runner place.side)) 0 }
    {
        let turn = match place.side {
            Side::Runner => 0,
            Side::Guard => 1,
        };
        self.ranks[RANKS_PER_RUNNER * place.runner + 2 * place.guard + turn]
    }

    // Whether going to region d + 1 serves the one to move, who can force a win.
    fn serves(self, place: Place, d: usize) -> bool
        requires { (place.runner < 32) × (place.guard < 32) × (d < 32) }
        ensures { Served self.entry.board.now.near self.entry.ranks.now place.runner place.guard (is_runner place.side) d result }
    {
        match place.side {
            Side::Runner => {
                if !has(self.board.near[place.runner], d) {
                    return false;
                }
                let there = self.rank(Place {
                    runner: d,
                    side: Side::Guard,
                    ..place
                });
                (0 < there) & (there < self.rank(place))
            }
            Side::Guard => {
                if !has(self.board.near[place.guard], d) {
                    return false;
                }
                let there = self.rank(Place {
                    guard: d,
                    side: Side::Runner,
                    ..place
                });
                there == 0
            }
        }
    }

    // The least region that serves.
    fn region_for(self, place: Place) -> usize
        requires { AtPlace self.board.now.regions place.runner place.guard }
        ensures answer { (G : Game) (goal : ℕ) → Plays self.entry.board.now.near self.entry.board.now.regions goal G →
            result ≡ least_below (suc self.entry.board.now.regions) (serves_by G (rank_at self.entry.ranks.now) (place_of place)) }
        ensures bound { result ≤ 32 }
    {
        // Kept: some region serves one who can force a win, so that the last need not be asked; asked all, `find` would give an Option that is never None.
        (1..self.board.regions)
            .find(|&d| self.serves(place, d - 1))
            .unwrap_or(self.board.regions)
    }

    // The least region that serves; none where play is over or the winner is not to move.
    fn region_at(self, place: Place, winner: Side) -> Option<u32>
        requires { AtPlace self.board.now.regions place.runner place.guard }
        ensures { (G : Game) → Plays self.entry.board.now.near self.entry.board.now.regions self.entry.board.now.goal G →
            is_runner winner ≡ ltb 0 (rank_at self.entry.ranks.now (place_of place)) →
            number_in result ≡ (verdict_by G (rank_at self.entry.ranks.now) (place_of place)).region }
    {
        if (place.runner == place.guard) | (place.runner == self.board.goal) {
            return None;
        }
        if place.side != winner {
            return None;
        }
        Some(self.region_for(place) as u32)
    }

    // Who wins and in how few moves, by the rank.
    fn verdict_at(self, place: Place) -> Verdict
        requires { AtPlace self.board.now.regions place.runner place.guard }
        ensures { (G : Game) → Plays self.entry.board.now.near self.entry.board.now.regions self.entry.board.now.goal G →
            numbers_in result ≡ numbers_of (verdict_by G (rank_at self.entry.ranks.now) (place_of place)) }
    {
        let rank = self.rank(place);
        let winner = Side::winner(rank);
        Verdict {
            winner,
            moves: rank.saturating_sub(1),
            region: self.region_at(place, winner),
        }
    }
}

// A verdict in numbers, 0 where no region is named.
fn put_verdict(verdicts: &mut [u32], k: usize, v: Verdict)
    requires { k + 2 < length verdicts.old }
    ensures { verdicts.new ≡ sets verdicts.old k (numbers_in v) }
{
    verdicts[k] = v.winner.number();
    verdicts[k + 1] = v.moves;
    verdicts[k + 2] = v.region.unwrap_or(0);
}

// How many places a game of so many regions has: two for each region of the runner and each of the guard.
pub fn place_count(regions: usize) -> usize
    requires { regions ≤ 32 }
    ensures { result ≡ place_count regions }
{
    2 * (regions * regions)
}

// The place of number c among those of so many regions.
fn place_at(regions: usize, c: usize) -> Place
    requires { (regions ≤ 32) × (c < place_count regions) }
    ensures is { place_of result ≡ place_at regions c }
    ensures inside { AtPlace regions result.runner result.guard }
{
    Place {
        runner: c / 2 / regions,
        guard: c / 2 % regions,
        side: if c % 2 == 0 {
            Side::Runner
        } else {
            Side::Guard
        },
    }
}

// The verdicts of all places.
pub fn put_verdicts(board: &Board, ranks: &[u32; RANKS], verdicts: &mut [u32])
    requires { Fits board.now.regions board.now.goal verdicts.old }
    ensures { (G : Game) → Plays board.now.near board.now.regions board.now.goal G →
        verdicts.new ≡ sets verdicts.old 0 (verdicts_by G ranks.now (place_count board.now.regions)) }
{
    let ranked = RankedBoard { board, ranks };
    let regions = board.regions;
    let count = place_count(regions);
    // Kept: a place is told by its number c, and of a list that `chunks_exact_mut` lends in parts a proof knows no element behind the loop.
    for c in 0..count {
        put_verdict(
            verdicts,
            NUMBERS_PER_VERDICT * c,
            ranked.verdict_at(place_at(regions, c)),
        );
    }
}

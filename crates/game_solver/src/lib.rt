// Runner and guard over a graph as plain lists: who can force a win from every place of both and either to move, in how few moves, and by which least region.

#![tactic(auto)]

ghost use Rattle.std.specs.Prelude.{◌≡◌, List, ℕ, ◌/◌, ◌≤◌, length};
ghost use Rattle.definitions.specs.Limits.{numbers_per_pair};
ghost use Rattle.definitions.specs.Lists.{overwrite};
ghost use Rattle.definitions.specs.Refusals.{or_else};
ghost use Rattle.definitions.specs.Verdict.{refusal};
ghost use Rattle.game.specs.Graph.{graph_of, edges_in, max_game_regions, verdicts_room, place_count};
ghost use Rattle.game.specs.Graph.{graph_fault, goal_fault, solve_answer, verdict_numbers, Solves};
ghost use Rattle.game_search.specs.Edges.{last_two};
ghost use Rattle.refusals.specs.Answers.{answer_in, answer_of};
ghost use Rattle.refusals.specs.Refusals.{refusal_in};

use definitions::limits::NUMBERS_PER_PAIR;
use game_search::neighbours::find_neighbours;
use game_search::search;
use game_sets::board::{Board, MAX_REGIONS, RANKS};
use game_verdicts::{NUMBERS_PER_VERDICT, place_count, put_verdicts};
use refusals::answers::Answer;
use refusals::{Cause, Refusal, ensure};

const NUMBERS_PER_EDGE: usize = 2;

// Room for the verdicts of the largest graph.
pub const VERDICTS_ROOM: usize = NUMBERS_PER_VERDICT * RANKS;

// 23 and 24: more regions than a game has, and a goal that is none of them.
pub fn check_graph(regions: u64, goal: u64) -> Result<(), Refusal>
    ensures { refusal_in result ≡ or_else (refusal 23 (graph_fault regions)) (refusal 24 (goal_fault regions goal)) }
{
    ensure(regions <= MAX_REGIONS as u64, Cause::Graph)?;
    ensure((1..=regions).contains(&goal), Cause::Goal)
}

// How many verdicts there are, or why the operation refuses.
fn count_verdicts(regions: u64, pairs: usize, goal: u64, room: usize) -> Result<usize, Refusal>
    ensures { (list : List ℕ) → length list ≡ pairs → answer_of result ≡ solve_answer regions list goal room }
{
    ensure(pairs % NUMBERS_PER_EDGE == 0, Cause::Entries)?;
    ensure(VERDICTS_ROOM <= room, Cause::Room)?;
    check_graph(regions, goal)?;
    Ok(place_count(regions as usize))
}

// The verdicts of a graph of up to 32 regions, whose edges are the last two numbers of each list and whose goal is one of its regions.
fn solve_edges<const N: usize>(
    regions: usize,
    edges: &[[u32; N]],
    goal: usize,
    verdicts: &mut [u32],
)
    requires sizes { (regions ≤ max_game_regions) × (1 ≤ goal) × (goal ≤ regions) × (verdicts_room ≤ length verdicts.old) }
    requires two { 2 ≤ N }
    ensures { verdicts.new ≡ overwrite (verdict_numbers (last_two N regions edges.now goal) (place_count regions)) verdicts.old }
{
    let board = Board {
        near: find_neighbours(regions, edges),
        regions,
        goal: goal - 1,
    };
    let ranks = search(&board);
    put_verdicts(&board, &ranks, verdicts);
}

// Those of a graph of these pairs.
fn solve(regions: usize, pairs: &[u32], goal: usize, verdicts: &mut [u32])
    requires { (regions ≤ max_game_regions) × (1 ≤ goal) × (goal ≤ regions) × (verdicts_room ≤ length verdicts.old) }
    ensures { verdicts.new
        ≡ overwrite (verdict_numbers (graph_of regions pairs.now goal) (place_count regions)) verdicts.old }
{
    let (edges, _) = pairs.as_chunks::<NUMBERS_PER_EDGE>();
    solve_edges(regions, edges, goal, verdicts);
}

// And of the graph of a map, whose rows of span, smaller and larger region are its pairs.
pub fn solve_rows(regions: usize, rows: &[u32], goal: usize, verdicts: &mut [u32])
    requires { (regions ≤ max_game_regions) × (1 ≤ goal) × (goal ≤ regions) × (verdicts_room ≤ length verdicts.old) }
    ensures { verdicts.new
        ≡ overwrite (verdict_numbers (graph_of regions (edges_in rows.now (length rows.now / numbers_per_pair)) goal) (place_count regions)) verdicts.old }
{
    let (edges, _) = rows.as_chunks::<NUMBERS_PER_PAIR>();
    solve_edges(regions, edges, goal, verdicts);
}

// The verdicts, or why the operation refuses. Gives how many verdicts there are.
fn solve_game(
    regions: u64,
    pairs: &[u32],
    goal: u64,
    verdicts: &mut [u32],
) -> Result<usize, Refusal>
    ensures { Solves regions pairs.now goal verdicts.old (answer_of result) verdicts.new }
{
    let count = count_verdicts(regions, pairs.len(), goal, verdicts.len())?;
    solve(regions as usize, pairs, goal as usize, verdicts);
    Ok(count)
}

// For other languages too: `jenwyllt_c` calls it as jenwyllt_solve_game, which include/jenwyllt.h declares.
pub fn game_solver_solve_game(
    regions: u64,
    pairs: &[u32],
    goal: u64,
    verdicts: &mut [u32],
) -> Answer
    ensures { Solves regions pairs.now goal verdicts.old (answer_in result) verdicts.new }
{
    Answer::from(solve_game(regions, pairs, goal, verdicts))
}

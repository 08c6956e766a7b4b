// The game on the kept graph: refusals 23 and 24, and the verdicts.
ghost use Rattle.std.specs.Prelude.{◌≡◌, ◌*◌, ◌≤◌, length};
ghost use Rattle.definitions.specs.Limits.{numbers_per_pair};
ghost use Rattle.game.specs.Graph.{graph_of, edges_in, verdicts_room, verdicts_at_exit};
ghost use Rattle.call_answers.specs.Game.{game_answer_of};
ghost use Rattle.game_lists.specs.Forms.{late_answer};

use call_answers::game_answers::GameKept;
use definitions::limits::NUMBERS_PER_PAIR;
use game_solver::{check_graph, solve_rows};
use refusals::Refusal;

// Plays on the graph of `count` rows of pairs.
// Kept: `kept` is handed on so that one clause tells the call's whole answer; without it the caller would put the answer together, and prove it. The count is
// that of `edges_in`, which the contract asks of the whole list.
pub fn play(
    kept: usize,
    regions: usize,
    goal: u64,
    rows: &[u32],
    count: usize,
    verdicts: &mut [u32],
) -> Result<GameKept, Refusal>
    requires { (numbers_per_pair * count ≤ length rows.now) × (verdicts_room ≤ length verdicts.old) }
    ensures answer { game_answer_of result ≡ late_answer kept regions goal }
    ensures verdicts { verdicts.new
        ≡ verdicts_at_exit (graph_of regions (edges_in rows.now count) goal) verdicts.old (game_answer_of result).number }
{
    check_graph(regions as u64, goal)?;
    solve_rows(
        regions,
        &rows[..NUMBERS_PER_PAIR * count],
        goal as usize,
        verdicts,
    );
    Ok(GameKept { kept, regions })
}

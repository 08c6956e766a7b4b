// What `game_solver` exports to C.

ghost use Rattle.game.specs.Graph.{Solves};
ghost use Rattle.refusals.specs.Answers.{answer_in};

use refusals::answers::Answer;

// Runner and guard on a graph whose edges are pairs of regions.
#[unsafe(no_mangle)]
pub extern "C" fn jenwyllt_solve_game(
    regions: u64,
    pairs: &[u32],
    goal: u64,
    verdicts: &mut [u32],
) -> Answer
    ensures { Solves regions pairs.now goal verdicts.old (answer_in result) verdicts.new }
{
    game_solver::game_solver_solve_game(regions, pairs, goal, verdicts)
}

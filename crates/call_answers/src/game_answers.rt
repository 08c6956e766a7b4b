// The answer to a call of runner and guard.
ghost use Rattle.std.specs.Prelude.{◌≡◌};
ghost use Rattle.call_answers.specs.Game.{game_answer, game_answer_of};

use refusals::Refusal;

// How many rows are kept, and the regions of the kept graph.
#[derive(Clone, Copy)]
pub struct GameKept {
    pub kept: usize,
    pub regions: usize,
}

// As C is given it: number 0 with both, or a refusal's number and place, and 0.
#[repr(C)]
#[derive(Clone, Copy)]
pub struct GameAnswer {
    pub number: u64,
    pub value: u64,
    pub regions: u64,
}

// Kept: not the `Answer` of `refusals`, since C's struct of this call has a third number, how many regions the kept graph has.
impl From<Result<GameKept, Refusal>> for GameAnswer {
    ghost from_gives = { λ given answer. game_answer answer ≡ game_answer_of given };

    fn from(given: Result<GameKept, Refusal>) -> GameAnswer {
        match given {
            Ok(game) => GameAnswer {
                number: 0,
                value: game.kept as u64,
                regions: game.regions as u64,
            },
            Err(refusal) => GameAnswer {
                number: refusal.cause.number(),
                value: refusal.place as u64,
                regions: 0,
            },
        }
    }
}

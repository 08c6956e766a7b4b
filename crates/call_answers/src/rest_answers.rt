// The answer to a run to rest.
ghost use Rattle.std.specs.Prelude.{◌≡◌};
ghost use Rattle.call_answers.specs.Rest.{rest_answer, rest_answer_of};

use refusals::Refusal;

// How many rows are kept, and how many rounds were run.
#[derive(Clone, Copy)]
pub struct RestKept {
    pub kept: usize,
    pub rounds: u64,
}

// As C is given it: number 0 with both, or a refusal's number and place, and 0.
#[repr(C)]
#[derive(Clone, Copy)]
pub struct RestAnswer {
    pub number: u64,
    pub value: u64,
    pub rounds: u64,
}

// Kept: not the `Answer` of `refusals`, since C's struct of this call has a third number, how many rounds there were.
impl From<Result<RestKept, Refusal>> for RestAnswer {
    ghost from_gives = { λ given answer. rest_answer answer ≡ rest_answer_of given };

    fn from(given: Result<RestKept, Refusal>) -> RestAnswer {
        match given {
            Ok(rest) => RestAnswer {
                number: 0,
                value: rest.kept as u64,
                rounds: rest.rounds,
            },
            Err(refusal) => RestAnswer {
                number: refusal.cause.number(),
                value: refusal.place as u64,
                rounds: 0,
            },
        }
    }
}

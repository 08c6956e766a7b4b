// The answer to a call of two desks, and which of them goes first.
ghost use Rattle.std.specs.Prelude.{◌≡◌};
ghost use Rattle.call_answers.specs.Desks.{order_of, desks_answer};

use refusals::Refusal;
use refusals::answers::Answer;

// How many rows of each desk are kept, or its refusal.
#[derive(Clone, Copy)]
pub struct DesksKept {
    pub route: Result<usize, Refusal>,
    pub coaching: Result<usize, Refusal>,
}

// As C is given it: the answer to each desk.
#[repr(C)]
#[derive(Clone, Copy)]
pub struct DesksAnswer {
    pub route: Answer,
    pub coaching: Answer,
}

impl From<DesksKept> for DesksAnswer {
    ghost from_gives = { λ kept answer. answer ≡ desks_answer kept };

    fn from(kept: DesksKept) -> DesksAnswer {
        DesksAnswer {
            route: Answer::from(kept.route),
            coaching: Answer::from(kept.coaching),
        }
    }
}

// Which desk goes first.
#[derive(Clone, Copy)]
pub enum DeskOrder {
    RouteFirst,
    CoachingFirst,
}

// As C tells it: 0, or any other number.
impl From<u64> for DeskOrder {
    ghost from_gives = { λ number order. order ≡ order_of number };

    fn from(number: u64) -> DeskOrder {
        match number {
            0 => DeskOrder::RouteFirst,
            _ => DeskOrder::CoachingFirst,
        }
    }
}

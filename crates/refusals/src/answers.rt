// What a call from C is answered: the number and the value of every operation that gives no more (struct jenwyllt_answer of include/jenwyllt.h).
ghost use Rattle.std.specs.Prelude.{◌≡◌};
ghost use Rattle.refusals.specs.Answers.{answer_in, answer_of, refused_at, refused_by};

use crate::{Cause, Refusal};

/// Number 0 and a count, or a refusal's number and place.
#[repr(C)]
#[derive(Clone, Copy, Debug, PartialEq, Eq)]
pub struct Answer {
    pub number: u64,
    pub value: u64,
}

// A refusal that names no place.
impl From<Cause> for Answer {
    ghost from_gives = { λ cause answer. answer ≡ refused_by cause };

    fn from(cause: Cause) -> Answer {
        Answer {
            number: cause.number(),
            value: 0,
        }
    }
}

impl From<Refusal> for Answer {
    ghost from_gives = { λ refusal answer. answer ≡ refused_at refusal };

    fn from(refusal: Refusal) -> Answer {
        Answer {
            number: refusal.cause.number(),
            value: refusal.place as u64,
        }
    }
}

impl From<Result<usize, Refusal>> for Answer {
    ghost from_gives = { λ given answer. answer_in answer ≡ answer_of given };

    fn from(given: Result<usize, Refusal>) -> Answer {
        match given {
            Ok(count) => Answer {
                number: 0,
                value: count as u64,
            },
            Err(refusal) => Answer::from(refusal),
        }
    }
}

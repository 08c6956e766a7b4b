// Why a call is refused: the causes of the table of SPECIFICATION 4 with what was added to it, their numbers, and the place of the first fault.

#![tactic(auto)]

pub mod answers;

ghost use Rattle.std.specs.Prelude.{◌≡◌};
ghost use Rattle.definitions.specs.Refusals.{unless};
ghost use Rattle.definitions.specs.Verdict.{refusal};
ghost use Rattle.refusals.specs.Refusals.{number_of, refusal_in};

/// A cause of the table of refusals, with its number there.
#[derive(Clone, Copy, Debug, PartialEq, Eq)]
pub enum Cause {
    Sides = 1,
    Cells = 2,
    Entries = 3,
    Pass = 4,
    SpanOutside = 5,
    SpanOfNoLength = 6,
    Boundary = 7,
    AnchorOutside = 8,
    Elevation = 9,
    Room = 10,
    Regions = 11,
    Pairs = 12,
    Range = 13,
    Sheet = 14,
    ResultSheet = 15,
    Lists = 16,
    Accession = 17,
    Date = 18,
    Term = 19,
    Desk = 20,
    Ranked = 21,
    TwoLists = 22,
    Graph = 23,
    Goal = 24,
}

impl Cause {
    /// Its number in the table.
    pub fn number(self) -> u64
        ensures { result ≡ number_of self }
    {
        self as u64
    }
}

/// A refusal: its cause, and the place of the first faulty entry, 0 where the table names none.
#[derive(Clone, Copy, Debug, PartialEq, Eq)]
pub struct Refusal {
    pub cause: Cause,
    pub place: usize,
}

/// A check that names no place, as a step of a list of checks: with `?` behind each, the first that fails is the refusal.
pub fn ensure(fits: bool, cause: Cause) -> Result<(), Refusal>
    ensures { refusal_in result ≡ refusal (number_of cause) (unless fits) }
{
    if fits {
        Ok(())
    } else {
        Err(Refusal { cause, place: 0 })
    }
}

/// A check that looks for the first faulty entry, as such a step.
pub fn no_fault(fault: Option<usize>, cause: Cause) -> Result<(), Refusal>
    ensures { refusal_in result ≡ refusal (number_of cause) fault }
{
    match fault {
        None => Ok(()),
        Some(place) => Err(Refusal { cause, place }),
    }
}

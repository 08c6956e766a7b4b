// The order of passes: 1, 2, 3 and 1 again, until three in a row remove none.

ghost use Rattle.std.specs.Prelude.{◌≡◌, cond, ◌+◌, ◌≤◌, eqb};
ghost use Rattle.checks.specs.Passes.{pass_number};
ghost use Rattle.rest_lists.specs.Turns.{last_number, turn_of, turn_after};

use checks::passes::Pass;

// The next pass, how many in a row before it removed none, and the rounds that are over.
#[derive(Clone, Copy)]
pub struct Turn {
    pub pass: Pass,
    pub quiet: u64,
    pub rounds: u64,
}

// Behind the pass that ran last, which removed some, or not; `last` is `None` where no pass has run yet.
pub fn next_turn(last: Option<Pass>, quiet: u64, rounds: u64, removed: bool) -> Turn
    requires { (quiet ≤ 3) × (rounds ≤ 257) }
    ensures { turn_of result ≡ turn_after (record { pass = last_number last; quiet = quiet; rounds = rounds }) removed }
{
    let quiet = if removed { 0 } else { quiet + 1 };
    let (pass, rounds) = match last {
        None => (Pass::ReplaceRampMouths, rounds),
        Some(Pass::ReplaceRampMouths) => (Pass::CollapseRampInteriors, rounds),
        Some(Pass::CollapseRampInteriors) => (Pass::RemoveJunctionBoundaries, rounds),
        Some(Pass::RemoveJunctionBoundaries) => (Pass::ReplaceRampMouths, rounds + 1),
    };
    Turn {
        pass,
        quiet,
        rounds,
    }
}

// Before any pass no quiet one is counted, as behind one that removed some.
pub fn first_turn() -> Turn
    ensures { turn_of result ≡ record { pass = 1; quiet = 0; rounds = 0 } }
{
    next_turn(None, 0, 0, true)
}

impl Turn {
    // Behind a pass that removed some, or none.
    pub fn next(self, removed: bool) -> Turn
        requires { (self.quiet ≤ 3) × (self.rounds ≤ 257) }
        ensures { turn_of result ≡ turn_after (turn_of self) removed }
    {
        next_turn(Some(self.pass), self.quiet, self.rounds, removed)
    }

    // The rounds of a run that three quiet passes end: the round in which the last of them stands is the last.
    pub fn rounds_run(self) -> u64
        requires { self.rounds ≤ 257 }
        ensures { result ≡ cond (eqb (pass_number self.pass) 1) self.rounds (self.rounds + 1) }
    {
        match self.pass {
            Pass::ReplaceRampMouths => self.rounds,
            _ => self.rounds + 1,
        }
    }
}

// The passes by the names of the Rust's functions, and their numbers in a call (SPECIFICATION 3). A number that is no pass's is check 4.
ghost use Rattle.std.specs.Prelude.{◌≡◌};
ghost use Rattle.checks.specs.Passes.{PassAsked};

use refusals::{Cause, Refusal};

#[derive(Clone, Copy, PartialEq, Eq)]
pub enum Pass {
    ReplaceRampMouths,
    CollapseRampInteriors,
    RemoveJunctionBoundaries,
}

// "pass not 1, 2 or 3"
impl TryFrom<u64> for Pass {
    type Error = Refusal;

    ghost try_from_gives = { PassAsked };

    fn try_from(number: u64) -> Result<Pass, Refusal> {
        match number {
            1 => Ok(Pass::ReplaceRampMouths),
            2 => Ok(Pass::CollapseRampInteriors),
            3 => Ok(Pass::RemoveJunctionBoundaries),
            _ => Err(Refusal {
                cause: Cause::Pass,
                place: 0,
            }),
        }
    }
}

// Definitions and theorems (see specs/), how many numbers an entry of each list has, and the slots of maps.

#![tactic(auto)]

pub mod sizes;
pub mod slots;

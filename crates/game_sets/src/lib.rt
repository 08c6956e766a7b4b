// Sets of regions as bits, the board of a game, and which regions of the runner a sweep finds.

#![tactic(auto)]

pub mod board;
pub mod moves;
pub mod sets;

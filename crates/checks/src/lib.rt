// The checks of the table of SPECIFICATION 4 that look at what is lent, numbers 1 to 10. Each equals its definition in Refusals.antt.
// `&` and `|` join tests here: no test has an effect, and without a branch each is its definition as it stands.

#![tactic(auto)]

pub mod anchors;
pub mod boundaries;
pub mod cells;
pub mod passes;
pub mod sizes;
pub mod spans;

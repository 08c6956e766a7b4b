// The choice among the proposals of pass 1, `replace_ramp_mouths` of ramp_boundaries.rs, over plain lists.

#![tactic(auto)]

pub mod bests;
pub mod held;
pub mod keys;
pub mod taken;

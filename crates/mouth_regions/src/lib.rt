// What pass 1, `replace_ramp_mouths` of ramp_boundaries.rs, asks of the records of a proposal's inner regions, one by one and by value.

#![tactic(auto)]

pub mod inner;
pub mod near;

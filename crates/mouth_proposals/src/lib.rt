// What a mouth and a ramp propose in pass 1, `replace_ramp_mouths` of ramp_boundaries.rs, over plain lists and before the records of regions are looked at.

#![tactic(auto)]

pub mod approaches;
pub mod candidates;
pub mod ends;
pub mod measures;
pub mod mouths;
pub mod regions;
pub mod shapes;

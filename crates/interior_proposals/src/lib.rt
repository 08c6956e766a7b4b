// Pass 2, `collapse_ramp_interiors` of ramp_boundaries.rs, over plain lists and regions by value.

#![tactic(auto)]

pub mod candidates;
pub mod components;
pub mod fits;
pub mod leaves;
pub mod owners;
pub mod ports;
pub mod proposals;

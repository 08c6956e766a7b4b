// The proposals of pass 3, `remove_junction_boundaries` of junctions.rs, over plain lists.

#![tactic(auto)]

pub mod bridges;
pub mod distances;
pub mod lists;
pub mod ports;
pub mod proposals;
pub mod unions;

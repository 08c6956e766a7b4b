// The choice among the proposals of pass 3, `remove_junction_boundaries` of junctions.rs, over plain lists.

#![tactic(auto)]

pub mod found;
pub mod ranks;
pub mod selection;

// Two desks over one partition (SPECIFICATION 19.13), over plain lists: a desk's own checks, and what comes before the records that both share.

#![tactic(auto)]

pub mod own;
pub mod shared;

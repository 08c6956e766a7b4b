// The definitions, in specs/, of which the contracts speak, and the limits, which code reads too.

#![tactic(auto)]

pub mod limits;

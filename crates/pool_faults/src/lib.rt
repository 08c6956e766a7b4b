// The rules of pool terms: terms of one map that do not overlap, and the first term that breaks a rule.

#![tactic(auto)]

mod apart;
pub mod faults;

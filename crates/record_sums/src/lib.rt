// Text only: what the records of all regions add up to.

#![tactic(auto)]

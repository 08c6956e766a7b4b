// The definitions of running the passes to rest, in specs/. There is no code.

#![tactic(auto)]

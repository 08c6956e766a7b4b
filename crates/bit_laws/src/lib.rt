// A law on the bits of a number. There is no code.

#![tactic(auto)]

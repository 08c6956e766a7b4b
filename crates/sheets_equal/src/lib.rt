// That equal sheets are equal bytes: definitions and theorems, in specs/: no function.

#![tactic(auto)]

// Theorems on calls alone, in specs/: no function.

#![tactic(auto)]

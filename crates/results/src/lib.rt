// Result sheets: their definitions and the theorems on them, in specs/: no function.

#![tactic(auto)]

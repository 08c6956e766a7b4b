// Two desks over one partition: the definitions and the theorems on them, in specs/: no function.

#![tactic(auto)]

// The ranked junction list: its definitions and the theorems on them, in specs/: no function.

#![tactic(auto)]

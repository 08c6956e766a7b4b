// What counts and chains over ranges give, as scans of the definitions, in specs/. There is no code.

#![tactic(auto)]

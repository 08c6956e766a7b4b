// That a pass keeps the same of an island in two maps that are alike on it, over the definitions. There is no code.

#![tactic(auto)]

// How far two segments are apart, exactly and as rounded, and the list of separations: definitions and theorems. There is no code.

#![tactic(auto)]

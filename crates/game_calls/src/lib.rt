// The game on a map over the definitions: the kept graph, the answer of the call and the lists at exit, and theorems on them. There is no code.

#![tactic(auto)]

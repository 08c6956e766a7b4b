// The game of a runner and a guard on a graph: its definitions and theorems. There is no code.

#![tactic(auto)]

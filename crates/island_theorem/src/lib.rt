// Text only: demand 3, stated once over the calls of `topology_kept_boundaries`.

#![tactic(auto)]

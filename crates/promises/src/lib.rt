// Text only: the main theorems, restated in one file and proved by citation.

#![tactic(auto)]

// Definitions and theorems only: see specs/.

#![tactic(auto)]

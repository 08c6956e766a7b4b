// Sheets that state a map, as bytes; what their writer and their converter answer; the theorems on them, in specs/: no function.

#![tactic(auto)]

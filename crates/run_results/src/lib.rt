// What a run found as a result: that it keeps the rules of result sheets, in specs/: no function.

#![tactic(auto)]

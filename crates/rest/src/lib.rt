// Running the passes to rest over the definitions: that a run ends, after how many rounds at most, and that what it keeps of an island does not depend on the
// rest of the map. There is no code.

#![tactic(auto)]

// Laws of lists and numbers, in specs/, that no proof cites since the code that used them is gone. There is no code.

#![tactic(auto)]

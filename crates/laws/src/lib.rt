// Laws that several crates cite: of lists, numbers, orders, floats, regions, sheets and tables; and that the three passes, as the Rust writes them, are those
// of the definitions. There is no code.

#![tactic(auto)]

// The Rust's partition as it is written, and theorems on it, in specs/: no function.

#![tactic(auto)]

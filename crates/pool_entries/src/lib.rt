// The entries of the maps in the pool on a day: listed by number, and the record that each shows.

#![tactic(auto)]

pub mod entries;
pub mod maps;

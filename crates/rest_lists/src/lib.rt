// What a run to rest does over plain lists: its checks, the starting list, what a pass leaves of it, the rows at the end, and the order of passes.

#![tactic(auto)]

pub mod begin;
pub mod checked;
pub mod kept;
pub mod lists;
pub mod turns;

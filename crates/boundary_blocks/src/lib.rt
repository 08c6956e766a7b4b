// Lists of numbers in blocks of one size, such as boundaries, spans and rows: blocks that are copied or kept, and the list that a run to rest starts from.

#![tactic(auto)]

pub mod blocks;
pub mod start;

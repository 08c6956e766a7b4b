// What the call that plays on the kept graph does over plain lists: its checks, the partition by what a pass keeps, and the game.

#![tactic(auto)]

pub mod checked;
pub mod kept;
pub mod play;

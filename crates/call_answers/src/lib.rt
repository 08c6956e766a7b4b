// What a call from C is answered that has more to say than a number and a value (`Answer` of `refusals`): running to rest, runner and guard, two desks. Each
// struct is the one of include/jenwyllt.h, and is made of the operation's own result.

#![tactic(auto)]

pub mod desk_answers;
pub mod game_answers;
pub mod rest_answers;

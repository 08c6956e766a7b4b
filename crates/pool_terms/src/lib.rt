// Pool terms: their days by the calendar, and the rule that a term breaks.

#![tactic(auto)]

pub mod calendar;
pub mod terms;

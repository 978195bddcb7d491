// The parts of a rule as text: an item of days, a span, kind and comment, and what stands before a rule. Rests on the pieces of text.
#![tactic(auto)]

pub mod day;
pub mod state;
pub mod time;

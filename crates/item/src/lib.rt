// The items of a rule, read at a bit: those of its days, and its spans. Each answers its values with the bit after it, or a refusal.
#![tactic(auto)]

pub mod day;
pub mod sort;
pub mod time;
pub mod wide;

// The items of a rule that the fold writes, each stored in a lent buffer from a bit on; the answer is the bit after it. Ranges of days
// have step 1, offset 0 and all nth bits; a span comes as its number.
#![tactic(auto)]

pub mod day;
pub mod put;
pub mod time;

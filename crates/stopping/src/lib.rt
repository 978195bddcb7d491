// Why a rule stops the fold, by 02's numbers: 1 Fallback, 2 time, 3 year step, 4 monthday, 5 week step, 6 holiday, 7 weekday offset, 8 nth.
// It is asked of a rule that stops, and once: the rule is read from its first bit to its last, since a later part can have an earlier number.
#![tactic(auto)]

pub mod part;
pub mod rule;

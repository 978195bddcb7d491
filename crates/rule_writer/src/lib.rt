// Rules written: rows of items and of spans, a rule's head, the whole rule. A rule's ranges of days lie in a lent slice as start, end,
// start, end .., row behind row: years, months, weeks, weekdays; `item_counts` says how many pairs each row has.
#![tactic(auto)]

pub mod head;
pub mod row;
pub mod rule;

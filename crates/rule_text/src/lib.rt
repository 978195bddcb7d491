// A rule as text, written while it is read from the sheet: item after item, row after row. The answer says where something has no words;
// nothing is written for that.
#![tactic(auto)]

pub mod row;
pub mod rule;
pub mod shown;

// From a rule's days to ranges: the half of canonical_date.rs that reads. An item of days becomes its ranges, or it stops its rule;
// a row of items becomes a row of the table of ranges; the four rows of a rule are read one behind the other.
#![tactic(auto)]

pub mod canonical;
pub mod days;
pub mod row;

// The tables that one stage of a fold leaves for the next: how many numbers a row of each has, the
// search among rising numbers, and the size of a page. What each table holds is
// said in specs/: the drained rules, the cuts, the boxes' lists, the days and the pages.
#![tactic(auto)]

pub mod cells;
pub mod copy;
pub mod lent;
pub mod page;
pub mod search;

// A rule's ranges in one dimension: 32 at most, a start and an end each.
pub const RANGE_PLACES: usize = 64;

// A box's list: how many rules it has, then their numbers.
pub const LIST_PLACES: usize = 33;

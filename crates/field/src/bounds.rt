// The lawful values of each field that not every value of its width may stand in.
use std::ops::Range;

pub const YEAR: Range<u64> = 1900..10000;

pub const MONTH: Range<u64> = 1..13;

pub const WEEK: Range<u64> = 1..54;

// 0 Monday to 6 Sunday.
pub const WEEKDAY: Range<u64> = 0..7;

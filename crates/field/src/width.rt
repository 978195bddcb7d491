// How many bits each field takes whose width no form sets, by 01's "The packed sheet": here, and nowhere else in the code that reads, writes or
// measures. Comments and counts, whose widths a form sets, are in crate `forms`.
// A field begins at any bit of a byte, so that it spans `(width + 14) / 8` bytes at most: a field of 1 bit 1, up to 9 bits 2, up to 17 bits 3,
// the reference 5.
// An operator, a kind, a monthday's tag.
pub const CHOICE: usize = 2;

pub const YEAR: usize = 14;

pub const YEAR_STEP: usize = 16;

pub const MONTH: usize = 4;

pub const WEEK: usize = 6;

pub const WEEK_STEP: usize = 8;

// The tag of a weekday or a time, a holiday's kind, `open_end`, whether a span repeats.
pub const FLAG: usize = 1;

pub const WEEKDAY: usize = 3;

pub const OFFSET: usize = 16;

pub const NTH: usize = 5;

pub const MINUTES: usize = 12;

pub const EVENT: usize = 2;

pub const REPEATS: usize = 12;

pub const REFERENCE: usize = 32;

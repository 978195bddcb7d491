// What the stages of a fold or a lookup lend one another: the tables of the drained rules, and the rows of cuts. What they hold is said in specs/ToDraw.

// The drained rules: each table has a row for a rule.
#[derive(Clone, Copy)]
pub struct DrainedRules<'a> {
    pub states: &'a [u32],
    pub span_counts: &'a [u8],
    pub spans: &'a [u64],
    pub replacing: &'a [u8],
    pub range_counts: &'a [u16],
    pub ranges: &'a [u16],
}

// The days of some rules, whatever their times: how many rules there are, and tables with a row for each.
#[derive(Clone, Copy)]
pub struct RuleDays<'a> {
    pub rules: usize,
    pub replacing: &'a [u8],
    pub range_counts: &'a [u16],
    pub ranges: &'a [u16],
}

// Where the ranges of the drained rules cut the four dimensions: where each one's row begins, how many intervals it has, and the rows.
#[derive(Clone, Copy)]
pub struct Cuts<'a> {
    pub row_starts: &'a [u16],
    pub sizes: &'a [u16],
    pub cuts: &'a [u16],
}

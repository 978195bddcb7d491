// What the pages of a fold are read from.

// The drained rules' states and spans, the lists of rules that have days, and so many pages, one behind the other.
#[derive(Clone, Copy)]
pub struct PagedRules<'a> {
    pub states: &'a [u32],
    pub span_counts: &'a [u8],
    pub spans: &'a [u64],
    pub lists: &'a [u16],
    pub pages: &'a [u16],
    pub count: usize,
}

// Whether a rule's ranges in a dimension hold a value; and whether the rule covers a box: in each dimension one of its ranges holds the first value of the box's
// interval. No range ends within an interval, since the cuts are at all ends.
ghost use Rattle.std.specs.Prelude.{◌≡◌, ◌+◌, ◌*◌, ◌≤◌, ◌<◌, length};
ghost use Rattle.grid.specs.Cut.{holds};
ghost use Rattle.plain_lists.specs.Covers.{in_ranges, RangesThere, holds_in, covers_box, Coverable};

use plain_boxes::digit;
use tables::RANGE_PLACES;
use tables::lent::{Cuts, RuleDays};

// Whether a range from a start up to an end, excluded, holds a value.
fn in_range(start: u16, end: u16, value: u16) -> bool
    ensures { result ≡ holds value (start, end) }
{
    start <= value && value < end
}

// Whether one of `count` ranges, start and end, from a place on holds a value.
fn in_ranges(ranges: &[u16], first: usize, count: usize, value: u16) -> bool
    requires { first + 2 * count ≤ length ranges.now }
    ensures { result ≡ in_ranges ranges.now first count value }
{
    for range in 0..count {
        let at = first + 2 * range;
        if in_range(ranges[at], ranges[at + 1], value) {
            return true;
        }
    }
    false
}

// Whether one of a rule's ranges in a dimension holds a value.
pub fn holds_in(
    range_counts: &[u16],
    ranges: &[u16],
    rule: usize,
    dimension: usize,
    value: u16,
) -> bool
    requires { RangesThere range_counts.now ranges.now rule × (dimension < 4) }
    ensures { result ≡ holds_in range_counts.now ranges.now rule dimension value }
{
    let count = usize::from(range_counts[rule * 4 + dimension]);
    in_ranges(ranges, rule * 256 + dimension * RANGE_PLACES, count, value)
}

// Whether the rule of a number covers a box.
pub fn covers(days: RuleDays, cuts: Cuts, rule: usize, box_index: usize) -> bool
    requires { Coverable cuts.row_starts.now cuts.sizes.now cuts.cuts.now days.range_counts.now days.ranges.now rule }
    ensures { result
        ≡ covers_box cuts.entry.row_starts.now cuts.entry.sizes.now cuts.entry.cuts.now days.entry.range_counts.now days.entry.ranges.now rule box_index }
{
    for dimension in 0..4 {
        let cut = usize::from(cuts.row_starts[dimension]) + digit(cuts.sizes, box_index, dimension);
        let value = cuts.cuts[cut];
        if !holds_in(days.range_counts, days.ranges, rule, dimension, value) {
            return false;
        }
    }
    true
}

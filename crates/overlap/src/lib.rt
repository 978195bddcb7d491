// Days typed twice (02, M-101): whether two ranges of one selector share a value, over the ranges that the tables hold. An item that wraps is
// two ranges there, which share none; so it is enough to ask any two.
#![tactic(auto)]

ghost use Rattle.std.specs.Prelude.{◌≡◌, List, ◌+◌, ◌*◌, ◌≤◌, ◌<◌, length};
ghost use Rattle.laws.specs.Lists.{from, any_of, any_pair};
ghost use Rattle.definition.specs.Rule.{Rule};
ghost use Rattle.definition.specs.OverBoxes.{meets};
ghost use Rattle.tables.specs.Sizes.{range_places};
ghost use Rattle.tables.specs.Ranges.{range_of, selector_of};
ghost use Rattle.tables.specs.Rules.{RuleDays};
ghost use Rattle.overlap.specs.Overlap.{row_of, EndBy, FewRanges, Overlapping};

use tables::RANGE_PLACES;

// Whether two ranges of a row share a value: each begins before the other ends.
fn ranges_meet(ranges: &[u16], dimension: usize, range: usize, other: usize) -> bool
    requires { (dimension * range_places + 2 * range + 1 < length ranges.now) × (dimension * range_places + 2 * other + 1 < length ranges.now) }
    ensures { result ≡ meets (range_of ranges.now dimension range) (range_of ranges.now dimension other) }
{
    let at = dimension * RANGE_PLACES + 2 * range;
    let beside = dimension * RANGE_PLACES + 2 * other;
    ranges[at] < ranges[beside + 1] && ranges[beside] < ranges[at + 1]
}

// Whether a range shares a value with one before it in its row.
fn meets_before(ranges: &[u16], dimension: usize, range: usize) -> bool
    requires { dimension * range_places + 2 * range + 1 < length ranges.now }
    ensures { result ≡ any_of (λ k. meets (range_of ranges.now dimension k) (range_of ranges.now dimension range)) (from 0 range) }
{
    (0..range).any(|earlier| ranges_meet(ranges, dimension, earlier, range))
}

// The same, where no range before it ends behind `end`. Most rows rise, as planners write them: a range that begins at `end` or behind it is
// compared with no other.
fn overlaps_before(ranges: &[u16], dimension: usize, range: usize, end: u16) -> bool
    requires { (dimension * range_places + 2 * range + 1 < length ranges.now) × EndBy ranges.now dimension range end }
    ensures { result ≡ any_of (λ k. meets (range_of ranges.now dimension k) (range_of ranges.now dimension range)) (from 0 range) }
{
    ranges[dimension * RANGE_PLACES + 2 * range] < end && meets_before(ranges, dimension, range)
}

// Whether two ranges of a row share a value.
fn row_overlaps(ranges: &[u16], dimension: usize, count: usize) -> bool
    requires { dimension * range_places + 2 * count ≤ length ranges.now }
    ensures { result ≡ any_pair meets (row_of ranges.now dimension count) }
{
    let mut end: u16 = 0;
    for range in 0..count {
        if overlaps_before(ranges, dimension, range, end) {
            return true;
        }
        end = end.max(ranges[dimension * RANGE_PLACES + 2 * range + 1]);
    }
    false
}

// Whether two ranges of one selector share a value, in one of a rule's four dimensions.
fn rule_overlaps(range_counts: &[u16], ranges: &[u16]) -> bool
    requires { FewRanges range_counts.now ranges.now }
    ensures { result ≡ any_of (any_pair meets) (selector_of range_counts.now ranges.now 4) }
{
    for dimension in (0..4).rev() {
        let count = usize::from(range_counts[dimension]);
        if row_overlaps(ranges, dimension, count) {
            return true;
        }
    }
    false
}

// The first of so many rules that has days typed twice; or how many there are.
pub fn first_overlap(range_counts: &[u16], ranges: &[u16], rules: usize) -> usize
    requires { (rs : List Rule) × RuleDays range_counts.now ranges.now rules rs }
    ensures { (rs : List Rule) → RuleDays range_counts.now ranges.now rules rs → Overlapping rs rules result }
{
    for rule in 0..rules {
        let from = rule * 4;
        let first = rule * 256;
        if rule_overlaps(&range_counts[from..from + 4], &ranges[first..first + 256]) {
            return rule;
        }
    }
    rules
}

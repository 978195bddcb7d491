// Whether some drained rules can't be refused for their lists (6, 14), told by counting alone. A list has no rule twice, so 32 rules make none that is too
// long. And there are no more different lists than boxes; nor than combinations of one kind of columns for each dimension, where columns are of one kind that no rule tells
// apart, as the years before all ranges and those behind them.
ghost use Rattle.std.specs.Prelude.{◌≡◌, true, List, ℕ, ◌+◌, ◌≤◌, ◌<◌, length, get_or};
ghost use Rattle.std.proofs.Math.Option.{none};
ghost use Rattle.definition.specs.Rule.{Rule};
ghost use Rattle.definition.specs.Sheet.{sheet_limits};
ghost use Rattle.definition.specs.Lists.{first_refused};
ghost use Rattle.point_state.specs.Few.{AllThere, marks_of, Kinds, DaysCut};

use limits::lists_over;
use paving::place::size_of;
use plain_lists::cover::holds_in;

// The most columns of a dimension that are compared with each other: more would cost more than drawing.
const MOST_COMPARED: usize = 32;

// Which rules hold a value of a dimension: a bit for each, the last rule's lowest.
fn marks_of(range_counts: &[u16], ranges: &[u16], rules: usize, dimension: usize, value: u16) -> u64
    requires { AllThere range_counts.now ranges.now rules × (dimension < 4) × (rules ≤ 32) }
    ensures { result ≡ marks_of range_counts.now ranges.now rules dimension value }
{
    let mut marks: u64 = 0;
    for rule in 0..rules {
        marks = marks * 2 + u64::from(holds_in(range_counts, ranges, rule, dimension, value));
    }
    marks
}

// Whether a column has the marks of one before it.
fn seen_before(marks: &[u64], column: usize) -> bool
    requires { column < length marks.now }
    ensures { result ≡ true → (x : ℕ) × (x < column) × (get_or marks.now x 0 ≡ get_or marks.now column 0) }
{
    marks[..column].contains(&marks[column])
}

// How many kinds of columns there are among the first of a dimension, as many as a buffer that is lent has places for their marks.
fn count_kinds(
    marks: &mut [u64],
    row_starts: &[u16],
    cuts: &[u16],
    range_counts: &[u16],
    ranges: &[u16],
    rules: usize,
    dimension: usize,
) -> usize
    requires all_there { AllThere range_counts.now ranges.now rules × (dimension < 4) × (rules ≤ 32) }
    requires dimension_in_bounds { (dimension < length row_starts.now) × (get_or row_starts.now dimension 0 + length marks.old < length cuts.now) }
    ensures { (result ≤ length marks.old)
        × Kinds range_counts.now ranges.now rules row_starts.now cuts.now dimension (length marks.old) result }
{
    let first = usize::from(row_starts[dimension]);
    let mut kinds: usize = 0;
    for column in 0..marks.len() {
        marks[column] = marks_of(range_counts, ranges, rules, dimension, cuts[first + column]);
        if !seen_before(marks, column) {
            kinds += 1;
        }
    }
    kinds
}

// How many kinds of columns a dimension has at most.
fn kinds_in(
    row_starts: &[u16],
    sizes: &[u16],
    cuts: &[u16],
    range_counts: &[u16],
    ranges: &[u16],
    rules: usize,
    dimension: usize,
) -> usize
    requires all_there { AllThere range_counts.now ranges.now rules × (dimension < 4) × (rules ≤ 32) }
    requires dimension_in_bounds { (dimension < length row_starts.now) × (dimension < length sizes.now)
        × (get_or row_starts.now dimension 0 + get_or sizes.now dimension 0 < length cuts.now) }
    ensures { (result < 65536) × Kinds range_counts.now ranges.now rules row_starts.now cuts.now dimension
        (get_or sizes.now dimension 0) result }
{
    let size = usize::from(sizes[dimension]);
    if size > MOST_COMPARED {
        return size;
    }
    let mut marks = [0u64; MOST_COMPARED];
    count_kinds(
        &mut marks[..size],
        row_starts,
        cuts,
        range_counts,
        ranges,
        rules,
        dimension,
    )
}

// Whether neither 6 nor 14 can be met by so many rules.
pub fn few_lists(
    row_starts: &[u16],
    sizes: &[u16],
    cuts: &[u16],
    range_counts: &[u16],
    ranges: &[u16],
    rules: usize,
) -> bool
    requires { (rs : List Rule) × DaysCut range_counts.now ranges.now row_starts.now sizes.now cuts.now rules rs }
    ensures { result ≡ true → (rs : List Rule)
        → DaysCut range_counts.now ranges.now row_starts.now sizes.now cuts.now rules rs
        → first_refused sheet_limits rs ≡ none }
{
    if rules > 32 {
        return false;
    }
    if !lists_over(size_of(sizes, 4)) {
        return true;
    }
    let years = kinds_in(row_starts, sizes, cuts, range_counts, ranges, rules, 0);
    let months = kinds_in(row_starts, sizes, cuts, range_counts, ranges, rules, 1);
    let weeks = kinds_in(row_starts, sizes, cuts, range_counts, ranges, rules, 2);
    let weekdays = kinds_in(row_starts, sizes, cuts, range_counts, ranges, rules, 3);
    !lists_over(weekdays * (weeks * (months * years)))
}

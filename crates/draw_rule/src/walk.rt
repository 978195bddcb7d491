// A rule drawn over the boxes that are reached over its runs: below a node, over the runs of one dimension, to nodes of the next one. Each box is
// drawn where it is met, so that a rule costs what it covers. Each dimension has a function of its own: one for all, which calls itself, would cost more than
// the boxes, and a trait with a type for each dimension would say the same head four times. What stays the same on the way is lent as one struct; what is
// drawn into, as slices that are changed.
ghost use Rattle.std.specs.Prelude.{◌≡◌, ◌+◌, ◌-◌, ◌*◌, ◌^◌, ◌≤◌, ◌<◌, length, get_or};
ghost use Rattle.laws.specs.Lists.{from};
ghost use Rattle.list_store.specs.Draw.{Making, Walked};
ghost use Rattle.tables.specs.Sizes.{range_places};
ghost use Rattle.draw_rule.specs.Runs.{Planned, Nodes, first_below, end_below, reached_from};

use list_store::{Drawn, draw};
use tables::RANGE_PLACES;

// What a rule is drawn by: the sizes of the dimensions, the rule's ranges and the runs that they cover, the rule's number, whether it replaces, and how many
// lists there were before it.
#[derive(Clone, Copy)]
pub struct Plan<'a> {
    pub sizes: &'a [u16],
    pub range_counts: &'a [u16],
    pub runs: &'a [u16],
    pub rule: u16,
    pub replaces: bool,
    pub before: usize,
}

// Nodes side by side: the first, and the one behind the last.
#[derive(Clone, Copy)]
struct Run {
    first: usize,
    end: usize,
}

// The run of a range below a node.
fn run_below(plan: Plan, dimension: usize, node: usize, range: usize) -> Run
    requires dimension_in_bounds { (dimension < length plan.sizes.now) × (dimension * range_places + 2 * range + 1 < length plan.runs.now) }
    requires dimension_bound { node * get_or plan.sizes.now dimension 0 + 65536 < 2 ^ 64 }
    ensures { (result.first ≡ first_below plan.entry.sizes.now plan.entry.runs.now dimension node range)
        × (result.end ≡ end_below plan.entry.sizes.now plan.entry.runs.now dimension node range) }
{
    let base = node * usize::from(plan.sizes[dimension]);
    let at = dimension * RANGE_PLACES + 2 * range;
    Run {
        first: base + usize::from(plan.runs[at]),
        end: base + usize::from(plan.runs[at + 1]),
    }
}

// Draws a rule at the boxes from `first` up to `end`, excluded.
fn draw_each(
    cells: &mut [u16],
    lists: &mut [u16],
    memo: &mut [u16],
    rule: u16,
    replaces: bool,
    before: usize,
    drawn: Drawn,
    first: usize,
    end: usize,
) -> Drawn
    requires making { Making cells.old lists.old memo.old rule before drawn.used }
    requires first_le_end { (first ≤ end) × (end ≤ length cells.old) }
    ensures { Walked cells.old lists.old drawn.used drawn.overflowed
        cells.new lists.new memo.new result.used result.overflowed rule replaces before (from first (end - first)) }
{
    let mut drawn = drawn;
    for box_index in first..end {
        drawn = draw(cells, lists, memo, rule, replaces, before, drawn, box_index);
    }
    drawn
}

// The same: once for a rule that replaces and once for one that appends, since the loop then needn't ask at each box which of them it is.
fn draw_boxes(
    cells: &mut [u16],
    lists: &mut [u16],
    memo: &mut [u16],
    plan: Plan,
    drawn: Drawn,
    first: usize,
    end: usize,
) -> Drawn
    requires making { Making cells.old lists.old memo.old plan.rule plan.before drawn.used }
    requires first_le_end { (first ≤ end) × (end ≤ length cells.old) }
    ensures { Walked cells.old lists.old drawn.used drawn.overflowed
        cells.new lists.new memo.new result.used result.overflowed plan.entry.rule plan.entry.replaces plan.entry.before (from first (end - first)) }
{
    let rule = plan.rule;
    let before = plan.before;
    if plan.replaces {
        draw_each(cells, lists, memo, rule, true, before, drawn, first, end)
    } else {
        draw_each(cells, lists, memo, rule, false, before, drawn, first, end)
    }
}

// Draws a rule below the nodes from `first` up to `end`, excluded, that have the years left: over the runs of the years, at the boxes.
fn draw_years(
    cells: &mut [u16],
    lists: &mut [u16],
    memo: &mut [u16],
    plan: Plan,
    drawn: Drawn,
    first: usize,
    end: usize,
) -> Drawn
    requires making { Making cells.old lists.old memo.old plan.rule plan.before drawn.used }
    requires planned { Planned plan.sizes.now plan.range_counts.now plan.runs.now }
    requires nodes { Nodes (length cells.old) plan.sizes.now 1 end × (first ≤ end) }
    ensures { Walked cells.old lists.old drawn.used drawn.overflowed
        cells.new lists.new memo.new result.used result.overflowed plan.entry.rule plan.entry.replaces plan.entry.before
        (reached_from plan.entry.sizes.now plan.entry.range_counts.now plan.entry.runs.now 1 first end) }
{
    let count = usize::from(plan.range_counts[0]);
    let mut drawn = drawn;
    let mut node = first;
    let mut range = 0;
    // Run after run of a node, then the next node: with `for` these are two loops, and a function here has one.
    while node < end {
        if range < count {
            let run = run_below(plan, 0, node, range);
            drawn = draw_boxes(cells, lists, memo, plan, drawn, run.first, run.end);
            range += 1;
        } else {
            node += 1;
            range = 0;
        }
    }
    drawn
}

// The same for nodes that have the months left, and then the years.
fn draw_months(
    cells: &mut [u16],
    lists: &mut [u16],
    memo: &mut [u16],
    plan: Plan,
    drawn: Drawn,
    first: usize,
    end: usize,
) -> Drawn
    requires making { Making cells.old lists.old memo.old plan.rule plan.before drawn.used }
    requires planned { Planned plan.sizes.now plan.range_counts.now plan.runs.now }
    requires nodes { Nodes (length cells.old) plan.sizes.now 2 end × (first ≤ end) }
    ensures { Walked cells.old lists.old drawn.used drawn.overflowed
        cells.new lists.new memo.new result.used result.overflowed plan.entry.rule plan.entry.replaces plan.entry.before
        (reached_from plan.entry.sizes.now plan.entry.range_counts.now plan.entry.runs.now 2 first end) }
{
    let count = usize::from(plan.range_counts[1]);
    let mut drawn = drawn;
    let mut node = first;
    let mut range = 0;
    // Run after run of a node, then the next node: with `for` these are two loops, and a function here has one.
    while node < end {
        if range < count {
            let run = run_below(plan, 1, node, range);
            drawn = draw_years(cells, lists, memo, plan, drawn, run.first, run.end);
            range += 1;
        } else {
            node += 1;
            range = 0;
        }
    }
    drawn
}

// The same from the weeks on.
fn draw_weeks(
    cells: &mut [u16],
    lists: &mut [u16],
    memo: &mut [u16],
    plan: Plan,
    drawn: Drawn,
    first: usize,
    end: usize,
) -> Drawn
    requires making { Making cells.old lists.old memo.old plan.rule plan.before drawn.used }
    requires planned { Planned plan.sizes.now plan.range_counts.now plan.runs.now }
    requires nodes { Nodes (length cells.old) plan.sizes.now 3 end × (first ≤ end) }
    ensures { Walked cells.old lists.old drawn.used drawn.overflowed
        cells.new lists.new memo.new result.used result.overflowed plan.entry.rule plan.entry.replaces plan.entry.before
        (reached_from plan.entry.sizes.now plan.entry.range_counts.now plan.entry.runs.now 3 first end) }
{
    let count = usize::from(plan.range_counts[2]);
    let mut drawn = drawn;
    let mut node = first;
    let mut range = 0;
    // Run after run of a node, then the next node: with `for` these are two loops, and a function here has one.
    while node < end {
        if range < count {
            let run = run_below(plan, 2, node, range);
            drawn = draw_months(cells, lists, memo, plan, drawn, run.first, run.end);
            range += 1;
        } else {
            node += 1;
            range = 0;
        }
    }
    drawn
}

// The same from the weekdays on: below the one node of the whole grid, over all boxes.
pub fn draw_weekdays(
    cells: &mut [u16],
    lists: &mut [u16],
    memo: &mut [u16],
    plan: Plan,
    drawn: Drawn,
    first: usize,
    end: usize,
) -> Drawn
    requires making { Making cells.old lists.old memo.old plan.rule plan.before drawn.used }
    requires planned { Planned plan.sizes.now plan.range_counts.now plan.runs.now }
    requires nodes { Nodes (length cells.old) plan.sizes.now 4 end × (first ≤ end) }
    ensures { Walked cells.old lists.old drawn.used drawn.overflowed
        cells.new lists.new memo.new result.used result.overflowed plan.entry.rule plan.entry.replaces plan.entry.before
        (reached_from plan.entry.sizes.now plan.entry.range_counts.now plan.entry.runs.now 4 first end) }
{
    let count = usize::from(plan.range_counts[3]);
    let mut drawn = drawn;
    let mut node = first;
    let mut range = 0;
    // Run after run of a node, then the next node: with `for` these are two loops, and a function here has one.
    while node < end {
        if range < count {
            let run = run_below(plan, 3, node, range);
            drawn = draw_weeks(cells, lists, memo, plan, drawn, run.first, run.end);
            range += 1;
        } else {
            node += 1;
            range = 0;
        }
    }
    drawn
}

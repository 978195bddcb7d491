// The box that holds a point: in each dimension the interval of its row of cuts that holds the point's number there.
ghost use Rattle.std.specs.Prelude.{suc, ◌+◌, ◌≤◌, ◌<◌, length, get_or};
ghost use Rattle.definition.specs.Sheet.{sheet_limits};
ghost use Rattle.calendar.specs.Dated.{point_list};
ghost use Rattle.paving.specs.Grid.{size_of, Node};
ghost use Rattle.state_at.specs.Boxes.{Framed, ChildAt, Gridded, BoxAt};

use calendar::Point;

// The interval of a row of cuts that holds a value: always between the lower and the upper of two of its cuts, which come together. The library's
// search would ask that the row rises, which no caller has to show here; and two places that come together are no walk, so this is a `while`.
fn interval_at(cuts: &[u16], first: usize, size: usize, value: u16) -> usize
    requires { (first + size < length cuts.now) × (1 ≤ size) × (get_or cuts.now first 0 ≤ value) × (value < get_or cuts.now (first + size) 0) }
    ensures { (result < size) × (get_or cuts.now (first + result) 0 ≤ value) × (value < get_or cuts.now (first + suc result) 0) }
{
    let mut lower: usize = 0;
    let mut upper = size;
    while upper - lower > 1 {
        let middle = lower + (upper - lower) / 2;
        if value < cuts[first + middle] {
            upper = middle;
        } else {
            lower = middle;
        }
    }
    lower
}

// One dimension further: the box below a box, in the interval that holds a value.
fn child_at(
    row_starts: &[u16],
    sizes: &[u16],
    cuts: &[u16],
    dimension: usize,
    box_index: usize,
    value: u16,
) -> usize
    requires framed { Framed row_starts.now sizes.now cuts.now dimension value }
    requires node { Node (size_of sizes.now 4) sizes.now (suc dimension) box_index × (size_of sizes.now 4 ≤ sheet_limits.boxes) }
    ensures { ChildAt row_starts.now sizes.now cuts.now dimension box_index value result }
{
    let size = usize::from(sizes[dimension]);
    box_index * size + interval_at(cuts, usize::from(row_starts[dimension]), size, value)
}

// The number of the box that holds a point.
pub fn box_at(row_starts: &[u16], sizes: &[u16], cuts: &[u16], point: Point) -> usize
    requires { Gridded row_starts.now sizes.now cuts.now (point_list point) }
    ensures { BoxAt row_starts.now sizes.now cuts.now (point_list point) result }
{
    let by_weekday = child_at(row_starts, sizes, cuts, 3, 0, u16::from(point.weekday));
    let by_week = child_at(
        row_starts,
        sizes,
        cuts,
        2,
        by_weekday,
        u16::from(point.week),
    );
    let by_month = child_at(row_starts, sizes, cuts, 1, by_week, u16::from(point.month));
    child_at(row_starts, sizes, cuts, 0, by_month, point.year)
}

// The group of a box: in each dimension the intervals that are good for it. A block is all boxes that have the same digits in the dimensions before some
// one; its boxes stand one behind the other, and blocks are numbered like boxes.
ghost use Rattle.std.specs.Prelude.{◌≡◌, ℕ, ◌+◌, ◌≤◌, ◌<◌, ◌^◌, eqb, length, get_or};
ghost use Rattle.grid.specs.Group.{agree, inside};
ghost use Rattle.paving.specs.Grid.{Room, size_of, width_of, grid, chosen, Cleared};
ghost use Rattle.plain_boxes.specs.Digits.{digits};
ghost use Rattle.plain_boxes.specs.Groups.{grown, MarkedGroup};

use paving::place::size_of;
use plain_boxes::{digit, width_of};

// Whether a box lies in marked intervals of the last `dims_left` dimensions, whose marks stand from `base` on.
fn is_marked(sizes: &[u16], marks: &[u8], box_index: usize, dims_left: usize, base: usize) -> bool
    requires dims_left_in_bounds { (dims_left ≤ length sizes.now) × ((k : ℕ) → k < dims_left → 1 ≤ get_or sizes.now k 0) × (size_of sizes.now dims_left < 2 ^ 64) }
    requires dims_left_in_bounds_2 { base + width_of sizes.now dims_left ≤ length marks.now }
    ensures { result ≡ inside eqb (chosen marks.now sizes.now dims_left base) (digits sizes.now dims_left box_index) }
{
    let mut place = base;
    for dimension in (0..dims_left).rev() {
        if marks[place + digit(sizes, box_index, dimension)] != 1 {
            return false;
        }
        place += usize::from(sizes[dimension]);
    }
    true
}

// Whether an interval is good for a day: no box of its block that lies in marked intervals of the later dimensions has another day.
fn is_good(
    cells: &[u16],
    sizes: &[u16],
    marks: &[u8],
    value: u16,
    dims_left: usize,
    block: usize,
    base: usize,
) -> bool
    requires { Room (length cells.now) (length marks.now) sizes.now dims_left block base }
    ensures { result ≡ agree eqb value (chosen marks.now sizes.now dims_left base) (grid cells.now sizes.now dims_left block) }
{
    let size = size_of(sizes, dims_left);
    let begin = block * size;
    for box_index in begin..begin + size {
        if cells[box_index] != value && is_marked(sizes, marks, box_index, dims_left, base) {
            return false;
        }
    }
    true
}

// Grows the group of the box `first` by one dimension: marks the intervals that are good for the box's day, within the block of the boxes that share its
// digits in all earlier dimensions.
fn grow(cells: &[u16], sizes: &[u16], marks: &mut [u8], first: usize, dimension: usize)
    requires room { Room (length cells.now) (length marks.old) sizes.now 4 0 0 }
    requires first_bound { (first < size_of sizes.now 4) × (dimension < 4) }
    ensures { marks.new ≡ grown cells.now sizes.now first dimension marks.old }
{
    let value = cells[first];
    let width = usize::from(sizes[dimension]);
    let block = first / size_of(sizes, dimension + 1);
    let base = width_of(sizes, 4) - width_of(sizes, dimension + 1);
    for interval in 0..width {
        let good = is_good(
            cells,
            sizes,
            marks,
            value,
            dimension,
            block * width + interval,
            base + width,
        );
        marks[base + interval] = u8::from(good);
    }
}

// Marks the group of a box: "Grow the year set to all years with that same list; then months good for all those years; then weeks; then weekdays."
// Dimension 0 is the years, 1 the months, 2 the weeks, 3 the weekdays.
pub fn mark_group(cells: &[u16], sizes: &[u16], marks: &mut [u8], first: usize)
    requires room { Room (length cells.now) (length marks.old) sizes.now 4 0 0 }
    requires first_bound { first < size_of sizes.now 4 }
    ensures { MarkedGroup cells.now sizes.now first 4 0 0 marks.old marks.new }
{
    for dimension in 0..4 {
        grow(cells, sizes, marks, first, dimension);
    }
}

// "Empty the box": every box in marked intervals of all dimensions has no day any more.
pub fn empty_group(cells: &mut [u16], sizes: &[u16], marks: &[u8])
    requires { Room (length cells.old) (length marks.now) sizes.now 4 0 0 }
    ensures { Cleared cells.old cells.new sizes.now 4 0 (chosen marks.now sizes.now 4 0) }
{
    let boxes = size_of(sizes, 4);
    for box_index in 0..boxes {
        if is_marked(sizes, marks, box_index, 4, 0) {
            cells[box_index] = 0;
        }
    }
}

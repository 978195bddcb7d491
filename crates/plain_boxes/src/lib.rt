// Boxes by their numbers: the last dimension, years, counts fastest, so that boxes stand in the order weekday, week, month, year. In each dimension a box
// has one interval, whose number is a digit of the box's.
#![tactic(auto)]

ghost use Rattle.std.specs.Prelude.{◌≡◌, ℕ, ◌≤◌, ◌<◌, ◌^◌, length, get_or};
ghost use Rattle.paving.specs.Grid.{size_of, width_of};
ghost use Rattle.plain_boxes.specs.Digits.{digit_of};

use paving::place::size_of;

// The interval of a box in a dimension: 0 years, 1 months, 2 weeks, 3 weekdays.
pub fn digit(sizes: &[u16], box_index: usize, dimension: usize) -> usize
    requires { (dimension < length sizes.now) × ((k : ℕ) → k ≤ dimension → 1 ≤ get_or sizes.now k 0) × (size_of sizes.now dimension < 2 ^ 64) }
    ensures { result ≡ digit_of sizes.now box_index dimension }
{
    let below = size_of(sizes, dimension);
    box_index / below % usize::from(sizes[dimension])
}

// How many intervals the last `dims_left` dimensions have.
pub fn width_of(sizes: &[u16], dims_left: usize) -> usize
    requires { (dims_left ≤ length sizes.now) × (width_of sizes.now dims_left < 2 ^ 64) }
    ensures { result ≡ width_of sizes.now dims_left }
{
    let mut width = 0;
    for &size in &sizes[..dims_left] {
        width = usize::from(size) + width;
    }
    width
}

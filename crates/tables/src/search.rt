// Search for a value's place among rising numbers.
ghost use Rattle.std.specs.Prelude.{◌≤◌, ◌<◌, length};
ghost use Rattle.tables.specs.Search.{Rising, PlaceOf};

// The first place among rising numbers whose number is not below a value; the end, if all are below it. Each step halves what is left.
pub fn place_in(numbers: &[u16], first: usize, end: usize, value: u16) -> usize
    requires first_le_end { (first ≤ end) × (end ≤ length numbers.now) }
    requires rising { Rising numbers.now first end }
    ensures { PlaceOf numbers.now first end value result }
{
    first + numbers[first..end].partition_point(|number| *number < value)
}

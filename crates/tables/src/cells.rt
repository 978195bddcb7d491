// A cell for each box, with a number that names what the box has: the number of its list, later that of its day.
ghost use Rattle.std.specs.Prelude.{ℕ, ◌<◌, length, get_or};
ghost use Rattle.tables.specs.Lists.{Renamed};

// Each cell gets what the table `numbers` has for the number that it had.
pub fn rename(cells: &mut [u16], numbers: &[u16])
    requires { (box : ℕ) → get_or cells.old box 0 < length numbers.now }
    ensures { Renamed cells.old numbers.now cells.new (length cells.old) }
{
    for cell in cells.iter_mut() {
        *cell = numbers[usize::from(*cell)];
    }
}

// Cells, one after the other.
ghost use Rattle.std.specs.Prelude.{◌≡◌, true, ◌≤◌, ◌<◌, length, get_or};
ghost use Rattle.paving.specs.Grid.{in_class, NoneFrom};

use super::class::in_class;

// Whether a day number is of a class; 0, no day, is of none.
fn is_of(classes: &[u8], class: u8, value: u16) -> bool
    requires { get_or classes.now 0 0 ≡ 0 }
    ensures { result ≡ in_class classes.now class value }
{
    value != 0 && in_class(classes, class, value)
}

// The first box of a class from `first` up to `end`, excluded; or `end`. Boxes that are emptied are passed by a glance.
pub fn next_box(cells: &[u16], classes: &[u8], class: u8, first: usize, end: usize) -> usize
    requires { (first ≤ end) × (end ≤ length cells.now) × (get_or classes.now 0 0 ≡ 0) }
    ensures { (first ≤ result) × (result ≤ end)
        × NoneFrom cells.now (in_class classes.now class) first result
        × (result < end → in_class classes.now class (get_or cells.now result 0) ≡ true) }
{
    for at in first..end {
        if is_of(classes, class, cells[at]) {
            return at;
        }
    }
    end
}

// The first cell of a class from `first` up to `end`, excluded; or `end`. It asks nothing of 0, so that an emptied cell is looked up as any other.
pub fn next_cell(cells: &[u16], classes: &[u8], class: u8, first: usize, end: usize) -> usize
    requires { (first ≤ end) × (end ≤ length cells.now) }
    ensures { (first ≤ result) × (result ≤ end)
        × NoneFrom cells.now (in_class classes.now class) first result
        × (result < end → in_class classes.now class (get_or cells.now result 0) ≡ true) }
{
    for at in first..end {
        if in_class(classes, class, cells[at]) {
            return at;
        }
    }
    end
}

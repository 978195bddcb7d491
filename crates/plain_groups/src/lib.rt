// Groups of boxes, found by searching the boxes directly; each is written as a page. 01, "From points to rules": "Class after class, while a point
// matches: take the first by weekday, week, month, year. Grow the year set to all years with that same list; then months good for all those years; then
// weeks; then weekdays. Write the list's entries as rules over these sets' maximal runs .. Empty the box; go on."
// `cells` has the day number of each box, 0 for none. A set has marks, one for each interval of each dimension: those of the weekdays stand first, those of
// the years last.
#![tactic(auto)]

mod group;

ghost use Rattle.std.specs.Prelude.{◌≡◌, ◌+◌, ◌*◌, ◌≤◌, length, get_or};
ghost use Rattle.paving.specs.Grid.{Room, size_of};
ghost use Rattle.paving.specs.Sweep.{swept, emitted, TakenOut};
ghost use Rattle.paving_pages.specs.Pages.{CutRows, state, groups_numbers, put_page, PopsPages};

use group::{empty_group, mark_group};
use paving::place::size_of;
use paving::row::next_cell;
use paving_pages::put_page;

// "While a point matches": the first box of the class, its group, and on to the next box. Each group is appended as a page and emptied.
fn pop_class(
    cells: &mut [u16],
    classes: &[u8],
    sizes: &[u16],
    marks: &mut [u8],
    row_starts: &[u16],
    cuts: &[u16],
    pages: &mut [u16],
    class: u8,
    start: usize,
) -> usize
    requires room { Room (length cells.old) (length marks.old) sizes.now 4 0 0 }
    requires cut_rows { CutRows row_starts.now cuts.now sizes.now 4 }
    requires classes_value { get_or classes.now 0 0 ≡ 0 }
    requires class_in_bounds { start + length (groups_numbers row_starts.now cuts.now sizes.now 4 (swept cells.old classes.now sizes.now class 4).0) ≤ length pages.old }
    ensures { (state pages.new result
        ≡ emitted (put_page row_starts.now cuts.now sizes.now 4) (state pages.old start)
        (swept cells.old classes.now sizes.now class 4).0)
        × TakenOut sizes.now 4 cells.old marks.old cells.new marks.new
        (swept cells.old classes.now sizes.now class 4).0
        (swept cells.old classes.now sizes.now class 4).1 }
{
    let boxes = size_of(sizes, 4);
    let mut next = start;
    let mut first = next_cell(cells, classes, class, 0, boxes);
    // From group to group, not box by box: `for` is no plainer.
    while first < boxes {
        let value = cells[first];
        mark_group(cells, sizes, marks, first);
        empty_group(cells, sizes, marks);
        next = put_page(pages, sizes, row_starts, cuts, marks, value, next, 4);
        first = next_cell(cells, classes, class, first, boxes);
    }
    next
}

// "Class after class": 1 all Open, 2 first Open, 3 all Unknown, 4 first Unknown, 5 any other. Answers how many numbers the pages have.
pub fn pop_pages(
    cells: &mut [u16],
    classes: &[u8],
    sizes: &[u16],
    marks: &mut [u8],
    row_starts: &[u16],
    cuts: &[u16],
    pages: &mut [u16],
) -> usize
    requires room { Room (length cells.old) (length marks.old) sizes.now 4 0 0 }
    requires cut_rows { CutRows row_starts.now cuts.now sizes.now 4 }
    requires classes_value { (get_or classes.now 0 0 ≡ 0) × (13 * size_of sizes.now 4 ≤ length pages.old) }
    ensures { PopsPages row_starts.now cuts.now sizes.now classes.now cells.old marks.old pages.old
        cells.new marks.new pages.new result }
{
    let mut next = 0;
    for class in 1..=5u8 {
        next = pop_class(
            cells, classes, sizes, marks, row_starts, cuts, pages, class, next,
        );
    }
    next
}

// The groups of a paving, popped class after class and appended as pages: the value, how many items each sort has (years, months, weeks,
// weekdays), then the items' first and last values in that order.
#![tactic(auto)]

ghost use Rattle.std.specs.Prelude.{◌≡◌, ◌+◌, ◌*◌, ◌≤◌, length, get_or};
ghost use Rattle.paving.specs.Grid.{Room, size_of, width_of, chosen};
ghost use Rattle.paving.specs.Sweep.{swept, emitted, TakenOut};
ghost use Rattle.paving_pages.specs.Pages.{CutRows, marked_items, laid_items, state, group_numbers, groups_numbers, put_page, PopsPages};
ghost use Rattle.tables.specs.Items.{end_numbers};

use box_groups::pop_group;
use date_items::put_items;
use paving::place::size_of;
use paving::row::next_box;
use plain_boxes::width_of;

// Appends the items of the marked set, sort after sort, and puts how many each sort has from another place on. The years' marks stand last.
fn put_sorts(
    pages: &mut [u16],
    sizes: &[u16],
    row_starts: &[u16],
    cuts: &[u16],
    marks: &[u8],
    counts_at: usize,
    start: usize,
    dims_left: usize,
) -> usize
    requires cut_rows { CutRows row_starts.now cuts.now sizes.now dims_left }
    requires dims_left_in_bounds { (width_of sizes.now dims_left ≤ length marks.now) × (counts_at + dims_left ≤ start) }
    requires dims_left_in_bounds_2 { start + length (end_numbers (marked_items row_starts.now cuts.now sizes.now marks.now dims_left 0)) ≤ length pages.old }
    ensures { (result ≡ start + length (end_numbers (marked_items row_starts.now cuts.now sizes.now marks.now dims_left 0)))
        × (pages.new ≡ laid_items pages.old counts_at start
        (marked_items row_starts.now cuts.now sizes.now marks.now dims_left 0)) }
{
    let mut base = width_of(sizes, dims_left);
    let mut next = start;
    for sort in 0..dims_left {
        let width = usize::from(sizes[sort]);
        base -= width;
        let item_count = put_items(
            marks,
            base,
            width,
            cuts,
            usize::from(row_starts[sort]),
            pages,
            next,
        );
        pages[counts_at + sort] = item_count as u16;
        next += 2 * item_count;
    }
    next
}

// Appends a page of the marked set.
pub fn put_page(
    pages: &mut [u16],
    sizes: &[u16],
    row_starts: &[u16],
    cuts: &[u16],
    marks: &[u8],
    value: u16,
    at: usize,
    dims_left: usize,
) -> usize
    requires cut_rows { CutRows row_starts.now cuts.now sizes.now dims_left }
    requires dims_left_in_bounds { width_of sizes.now dims_left ≤ length marks.now }
    requires dims_left_in_bounds_2 { at + length (group_numbers row_starts.now cuts.now sizes.now dims_left (value, chosen marks.now sizes.now dims_left 0)) ≤ length pages.old }
    ensures { state pages.new result
        ≡ put_page row_starts.now cuts.now sizes.now dims_left (state pages.old at)
        (value, chosen marks.now sizes.now dims_left 0) }
{
    pages[at] = value;
    put_sorts(
        pages,
        sizes,
        row_starts,
        cuts,
        marks,
        at + 1,
        at + 1 + dims_left,
        dims_left,
    )
}

// Pops and empties group after group of one class, and appends each. No box before a group's first one is of the class any more, so the search
// for the next group begins there. `boxes` is lent for the boxes of a group.
fn pop_class(
    cells: &mut [u16],
    classes: &[u8],
    sizes: &[u16],
    marks: &mut [u8],
    boxes: &mut [u16],
    row_starts: &[u16],
    cuts: &[u16],
    pages: &mut [u16],
    class: u8,
    start: usize,
) -> usize
    requires room { Room (length cells.old) (length marks.old) sizes.now 4 0 0 }
    requires cut_rows { CutRows row_starts.now cuts.now sizes.now 4 }
    requires classes_value { get_or classes.now 0 0 ≡ 0 }
    requires sizes_in_bounds { (size_of sizes.now 4 ≤ length boxes.old) × (length cells.old ≤ 65536) }
    requires class_in_bounds { start + length (groups_numbers row_starts.now cuts.now sizes.now 4 (swept cells.old classes.now sizes.now class 4).0) ≤ length pages.old }
    ensures { (state pages.new result
        ≡ emitted (put_page row_starts.now cuts.now sizes.now 4) (state pages.old start)
        (swept cells.old classes.now sizes.now class 4).0)
        × TakenOut sizes.now 4 cells.old marks.old cells.new marks.new
        (swept cells.old classes.now sizes.now class 4).0
        (swept cells.old classes.now sizes.now class 4).1 }
{
    let end = size_of(sizes, 4);
    let columns = width_of(sizes, 4);
    let mut next = start;
    let mut first = next_box(cells, classes, class, 0, end);
    // From group to group, not box by box: `for` is no plainer.
    while first < end {
        let value = cells[first];
        pop_group(cells, sizes, marks, boxes, first, columns);
        next = put_page(pages, sizes, row_starts, cuts, marks, value, next, 4);
        first = next_box(cells, classes, class, first, end);
    }
    next
}

// All groups of the four dimensions as pages, class after class; answers how many numbers they have. `boxes` is lent for the boxes of one group at a time, and may hold
// anything.
pub fn pop_pages(
    cells: &mut [u16],
    classes: &[u8],
    sizes: &[u16],
    marks: &mut [u8],
    boxes: &mut [u16],
    row_starts: &[u16],
    cuts: &[u16],
    pages: &mut [u16],
) -> usize
    requires room { Room (length cells.old) (length marks.old) sizes.now 4 0 0 }
    requires cut_rows { CutRows row_starts.now cuts.now sizes.now 4 }
    requires classes_value { (get_or classes.now 0 0 ≡ 0) × (13 * size_of sizes.now 4 ≤ length pages.old) }
    requires sizes_in_bounds { (size_of sizes.now 4 ≤ length boxes.old) × (length cells.old ≤ 65536) }
    ensures { PopsPages row_starts.now cuts.now sizes.now classes.now cells.old marks.old pages.old
        cells.new marks.new pages.new result }
{
    let mut next = 0;
    for class in 1..=5u8 {
        next = pop_class(
            cells, classes, sizes, marks, boxes, row_starts, cuts, pages, class, next,
        );
    }
    next
}

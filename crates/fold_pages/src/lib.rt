// From boxes with lists to pages of the folded rules: numbers the lists' days, gives each box the number of its list's day, pops the groups of
// boxes that have one day, writes each as a page, and counts the pages.
#![tactic(auto)]

ghost use Rattle.std.specs.Prelude.{◌≡◌, List, ◌+◌, ◌*◌, ◌≤◌, ◌<◌, length, get_or};
ghost use Rattle.definition.specs.Rule.{Rule};
ghost use Rattle.definition.specs.Sheet.{sheet_limits};
ghost use Rattle.paving.specs.Grid.{size_of, Node};
ghost use Rattle.paving_pages.specs.Pages.{CutRows};
ghost use Rattle.tables.specs.Rules.{RuleTimes};
ghost use Rattle.tables.specs.Lists.{BoxLists};
ghost use Rattle.fold_pages.specs.Folds.{Popped, Folds};

use tables::lent::{Cuts, DrainedRules};

// All groups of boxes that have one day, as pages, with so many marks and room for so many boxes of a group; answers how many numbers the pages have.
fn pop_with<const MARKS: usize, const BOXES: usize>(
    cells: &mut [u16],
    classes: &[u8],
    cuts: Cuts,
    pages: &mut [u16],
) -> usize
    requires cells_len { (length cells.old ≡ size_of cuts.sizes.now 4) × (size_of cuts.sizes.now 4 ≤ sheet_limits.boxes) × Node (length cells.old) cuts.sizes.now 4 0 }
    requires cut_rows { CutRows cuts.row_starts.now cuts.cuts.now cuts.sizes.now 4 }
    requires classes_value { (get_or classes.now 0 0 ≡ 0) × (13 * size_of cuts.sizes.now 4 ≤ length pages.old) }
    requires enough { (length cells.old ≤ BOXES) × (BOXES + 3 ≤ MARKS) × (MARKS < 65536) }
    ensures { Popped cuts.entry cells.old classes.now pages.old pages.new result }
{
    let mut marks = [0u8; MARKS];
    let mut boxes = [0u16; BOXES];
    paving_pages::pop_pages(
        cells,
        classes,
        cuts.sizes,
        &mut marks,
        &mut boxes,
        cuts.row_starts,
        cuts.cuts,
        pages,
    )
}

// The same, with marks and a list of a group's boxes that are its own: for few boxes there are few to clear. There is a mark for each interval of four
// dimensions: with at most 64 boxes there are at most 67, with 4,096 at most 4,099.
fn pop_groups(cells: &mut [u16], classes: &[u8], cuts: Cuts, pages: &mut [u16]) -> usize
    requires cells_len { (length cells.old ≡ size_of cuts.sizes.now 4) × (size_of cuts.sizes.now 4 ≤ sheet_limits.boxes) × Node (length cells.old) cuts.sizes.now 4 0 }
    requires cut_rows { CutRows cuts.row_starts.now cuts.cuts.now cuts.sizes.now 4 }
    requires classes_value { (get_or classes.now 0 0 ≡ 0) × (13 * size_of cuts.sizes.now 4 ≤ length pages.old) }
    ensures { Popped cuts.entry cells.old classes.now pages.old pages.new result }
{
    if cells.len() <= 64 {
        pop_with::<67, 64>(cells, classes, cuts, pages)
    } else {
        pop_with::<4099, 4096>(cells, classes, cuts, pages)
    }
}

// From boxes with lists to pages of the folded rules, with so many classes: one for each list and one for the empty list; answers how many pages there are.
// It is never put into its caller, where the arrays of both sizes, and the words of days that are numbered, would stand side by side on one stack frame.
#[inline(never)]
fn fold_with<const CLASSES: usize>(
    rules: DrainedRules,
    lists: &[u16],
    used: usize,
    numbers: &mut [u16],
    cuts: Cuts,
    cells: &mut [u16],
    pages: &mut [u16],
) -> usize
    requires rule_times { (rs : List Rule) × RuleTimes rules.states.now rules.span_counts.now rules.spans.now rs
        × BoxLists cuts.row_starts.now cuts.sizes.now cuts.cuts.now cells.old lists.now used rs }
    requires used_in_bounds { (used < length numbers.old) × (used < CLASSES) × (CLASSES < 65536) × (used ≤ length pages.old) × (13 * size_of cuts.sizes.now 4 ≤ length pages.old) }
    ensures { Folds rules.entry cuts.entry lists.now cells.old used pages.new result }
{
    let mut classes = [0u8; CLASSES];
    // No page is written yet, so the buffer of the pages holds the hashes of the days.
    number_lists::number_lists(
        rules.states,
        rules.span_counts,
        rules.spans,
        lists,
        used,
        pages,
        numbers,
        &mut classes,
    );
    tables::cells::rename(cells, numbers);
    let stop = pop_groups(cells, &classes, cuts, pages);
    page_count::count_pages(pages, stop)
}

// From boxes with lists to pages of the folded rules in a buffer; answers how many pages there are. `cells` has the number of each box's list, one
// of the first `used`, and `numbers` a place for each of these and one for the empty list: it may hold anything. The cells are emptied. The
// classes are its own: for few lists there are few to clear.
pub fn fold_pages(
    rules: DrainedRules,
    lists: &[u16],
    used: usize,
    numbers: &mut [u16],
    cuts: Cuts,
    cells: &mut [u16],
    pages: &mut [u16],
) -> usize
    requires rule_times { (rs : List Rule) × RuleTimes rules.states.now rules.span_counts.now rules.spans.now rs
        × BoxLists cuts.row_starts.now cuts.sizes.now cuts.cuts.now cells.old lists.now used rs }
    requires used_in_bounds { (used < length numbers.old) × (used ≤ length pages.old) × (13 * size_of cuts.sizes.now 4 ≤ length pages.old) }
    ensures { Folds rules.entry cuts.entry lists.now cells.old used pages.new result }
{
    if used <= 64 {
        fold_with::<65>(rules, lists, used, numbers, cuts, cells, pages)
    } else {
        fold_with::<513>(rules, lists, used, numbers, cuts, cells, pages)
    }
}

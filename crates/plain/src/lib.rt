// The plain engine: the fold of drained rules over boxes alone, for a reader who knows 01.
//
// A box lies between neighbouring cuts in each dimension, so that no rule begins or ends inside it: what holds at its first point holds at all of its
// points. Boxes are numbered in 01's order, weekday, week, month, year; the number's digits are the box's intervals (`plain_boxes`).
// 1. Lists (`plain_lists`): rule by rule, each box that the rule covers gets it at the end of its list, or alone where the rule replaces. After each rule, 6
//    where a list has more than 32 entries, then 14 where there are more than 512 different lists.
// 2. Days (`number_lists`): each list's times are folded to a day, and equal days get one number: that of the first box that has it, counted from 1, and 0
//    for the empty day. Each number has the first class that its day is of.
// 3. Groups (`plain_groups`): class after class, while a box is of the class, the first one's group: all years with its day, then the months good for all
//    those years, then weeks, then weekdays. The group is written as a page, and its boxes are emptied.
// Each page then is a day's rules over the marked intervals, touching ones joined; the pages are written as rules by what both engines share (`fold_write`).
//
// Nothing is kept but what is named here: no columns, and no store. The cost is that of looking at all boxes for each rule and for each group.
#![tactic(auto)]

ghost use Rattle.std.specs.Prelude.{List, ◌*◌, ◌≤◌, ◌<◌, length};
ghost use Rattle.definition.specs.Rule.{Rule};
ghost use Rattle.definition.specs.Sheet.{Form};
ghost use Rattle.paving.specs.Grid.{size_of};
ghost use Rattle.tables.specs.Rules.{AllCommented, RuleTimes};
ghost use Rattle.tables.specs.Pages.{Paged};
ghost use Rattle.tables.specs.ToDraw.{Lent};
ghost use Rattle.paved.specs.Paved.{Paves};
ghost use Rattle.plain_lists.specs.Listing.{OwnLists};
ghost use Rattle.plain.specs.Room.{PlainRoom};

use answers::Refusal;
use buffers::{BOX_CLASSES, MARKS, zeros};
use number_lists::number_lists;
use page_count::count_pages;
use paving::place::size_of;
use plain_groups::pop_pages;
use plain_lists::list_rules;
use tables::lent::{Cuts, DrainedRules, RuleDays};

// From lists to pages: days are numbered, box by box, and the groups of boxes that have one day are written; answers how many pages there are. `numbers` has
// a place for the empty list, and then one for each box.
fn fold_lists(
    states: &[u32],
    span_counts: &[u8],
    spans: &[u64],
    row_starts: &[u16],
    sizes: &[u16],
    cuts: &[u16],
    lists: &[u16],
    numbers: &mut [u16],
    pages: &mut [u16],
) -> usize
    requires rule_times { (rs : List Rule) × RuleTimes states.now span_counts.now spans.now rs × OwnLists row_starts.now sizes.now cuts.now lists.now rs }
    requires sizes_in_bounds { (size_of sizes.now 4 < length numbers.old) × (13 * size_of sizes.now 4 ≤ length pages.old) }
    ensures { (rs : List Rule) (form : Form) → RuleTimes states.now span_counts.now spans.now rs
        → OwnLists row_starts.now sizes.now cuts.now lists.now rs → AllCommented form rs
        → Paged form states.now span_counts.now spans.now lists.now pages.new result rs }
{
    let boxes = size_of(sizes, 4);
    let mut classes: [u8; BOX_CLASSES] = zeros();
    let mut marks: [u8; MARKS] = zeros();
    // No page is written yet, so the buffer of the pages holds the hashes of the days.
    number_lists(
        states,
        span_counts,
        spans,
        lists,
        boxes,
        pages,
        numbers,
        &mut classes,
    );
    let stop = pop_pages(
        &mut numbers[1..boxes + 1],
        &classes,
        sizes,
        &mut marks,
        row_starts,
        cuts,
        pages,
    );
    count_pages(pages, stop)
}

// From the tables of the drained rules and the rows of their cuts to pages of the folded rules, in buffers that are lent: answers how many there are, or refuses (6,
// 14).
pub fn pave(
    rules: DrainedRules,
    cuts: Cuts,
    lists: &mut [u16],
    numbers: &mut [u16],
    pages: &mut [u16],
) -> Result<usize, Refusal>
    requires to_draw { (rs : List Rule) × Lent rules cuts rs }
    requires plain_room { PlainRoom lists.old (length numbers.old) (length pages.old) cuts.sizes.now }
    ensures { (rs : List Rule) → Lent rules.entry cuts.entry rs
        → Paves rules.entry.states.now rules.entry.span_counts.now rules.entry.spans.now lists.new pages.new rs result }
{
    let days = RuleDays {
        rules: rules.states.len(),
        replacing: rules.replacing,
        range_counts: rules.range_counts,
        ranges: rules.ranges,
    };
    list_rules(lists, days, cuts)?;
    let count = fold_lists(
        rules.states,
        rules.span_counts,
        rules.spans,
        cuts.row_starts,
        cuts.sizes,
        cuts.cuts,
        lists,
        numbers,
        pages,
    );
    Ok(count)
}

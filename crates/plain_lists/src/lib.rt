// A list for each box, in the order of the boxes: how many rules it has, then their numbers. 01: each rule in turn is put at the end of the list of every
// point that it covers, and alone where it replaces; 6 where a list passes 32 entries after a rule, 14 where there are more than 512 different lists.
#![tactic(auto)]

mod count;
pub mod cover;

ghost use Rattle.std.specs.Prelude.{◌≡◌, List, ℕ, ◌*◌, ◌≤◌, ◌<◌, length, get_or};
ghost use Rattle.definition.specs.Rule.{Rule};
ghost use Rattle.definition.specs.Sheet.{sheet_limits};
ghost use Rattle.paving.specs.Grid.{size_of};
ghost use Rattle.tables.specs.Sizes.{list_places};
ghost use Rattle.tables.specs.Cuts.{ToList};
ghost use Rattle.plain_lists.specs.Covers.{covers_box, Coverable};
ghost use Rattle.plain_lists.specs.Draw.{HasList, HaveLists, Appended, Drew};
ghost use Rattle.plain_lists.specs.Listing.{Listing};

use answers::{Reason, Refusal};
use count::too_many;
use cover::covers;
use limits::entry_allowed;
use paving::place::size_of;
use tables::LIST_PLACES;
use tables::lent::{Cuts, RuleDays};

// Puts a rule at the end of a box's list, or alone where it replaces. Answers no, and changes nothing, where the list has no room for it.
fn append(lists: &mut [u16], box_index: usize, rule: u16, replaces: bool) -> bool
    requires { HasList lists.old box_index }
    ensures { Appended lists.old lists.new box_index rule replaces result }
{
    let count_at = box_index * LIST_PLACES;
    let count = if replaces { 0 } else { lists[count_at] };
    if !entry_allowed(count) {
        return false;
    }
    lists[count_at + 1 + usize::from(count)] = rule;
    lists[count_at] = count + 1;
    true
}

// Puts a rule into the list of each box that it covers. Answers no where a list has no room for it.
fn draw_rule(
    lists: &mut [u16],
    days: RuleDays,
    cuts: Cuts,
    rule: usize,
    replaces: bool,
    boxes: usize,
) -> bool
    requires have_lists { HaveLists lists.old boxes × (rule < 65536) }
    requires coverable { Coverable cuts.row_starts.now cuts.sizes.now cuts.cuts.now days.range_counts.now days.ranges.now rule }
    ensures { Drew lists.old lists.new boxes rule replaces
        (covers_box cuts.entry.row_starts.now cuts.entry.sizes.now cuts.entry.cuts.now days.entry.range_counts.now days.entry.ranges.now rule) result }
{
    for box_index in 0..boxes {
        if covers(days, cuts, rule, box_index) && !append(lists, box_index, rule as u16, replaces) {
            return false;
        }
    }
    true
}

// Makes the lists of all boxes, rule by rule, where they are empty at first; or refuses (6, 14) at the rule after which that was met.
pub fn list_rules(lists: &mut [u16], days: RuleDays, cuts: Cuts) -> Result<(), Refusal>
    requires to_list { (rs : List Rule) × ToList days.replacing.now days.range_counts.now days.ranges.now cuts.row_starts.now cuts.sizes.now cuts.cuts.now days.rules rs }
    requires sizes_bound { (size_of cuts.sizes.now 4 ≤ sheet_limits.boxes) × (size_of cuts.sizes.now 4 * list_places ≤ length lists.old)
        × ((box : ℕ) → box < size_of cuts.sizes.now 4 → get_or lists.old (box * list_places) 0 ≡ 0) }
    ensures { (rs : List Rule)
        → ToList days.entry.replacing.now days.entry.range_counts.now days.entry.ranges.now cuts.entry.row_starts.now cuts.entry.sizes.now cuts.entry.cuts.now days.entry.rules rs
        → Listing cuts.entry.row_starts.now cuts.entry.sizes.now cuts.entry.cuts.now lists.new rs result }
{
    let boxes = size_of(cuts.sizes, 4);
    for rule in 0..days.rules {
        let replaces = days.replacing[rule] == 1;
        if !draw_rule(lists, days, cuts, rule, replaces, boxes) {
            return Err(Refusal {
                reason: Reason::LongList,
                place: rule,
            });
        }
        if too_many(lists, boxes) {
            return Err(Refusal {
                reason: Reason::ManyLists,
                place: rule,
            });
        }
    }
    Ok(())
}

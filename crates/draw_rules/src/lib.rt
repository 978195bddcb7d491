// Draws all rules over the boxes, one after the other, out of the tables of their days: each box then names the list of its points in the store. Stops
// at the first rule after which a list is too long (6) or there are too many lists (14).
#![tactic(auto)]

mod settle;

ghost use Rattle.std.specs.Prelude.{List, ◌+◌, ◌*◌, ◌≤◌, ◌<◌, length};
ghost use Rattle.definition.specs.Rule.{Rule};
ghost use Rattle.paving.specs.Grid.{Node};
ghost use Rattle.list_store.specs.Draw.{Ready, Drew};
ghost use Rattle.draw_rule.specs.Update.{Lawful, covered_box};
ghost use Rattle.tables.specs.Ranges.{table_row};
ghost use Rattle.tables.specs.Cuts.{ToList};
ghost use Rattle.draw_rules.specs.Listing.{NoLists, Listing};

use answers::{Reason, Refusal};
use limits::lists_over;
use list_reclaim::reclaim;
use list_store::Drawn;
use settle::settle;
use tables::lent::{Cuts, RuleDays};

// Draws the rule of a number over all boxes.
fn draw_row(
    cells: &mut [u16],
    lists: &mut [u16],
    memo: &mut [u16],
    days: RuleDays,
    cuts: Cuts,
    rule: usize,
    replaces: bool,
    used: usize,
) -> Drawn
    requires rule_bound { (rule < 65536) × (rule * 4 + 4 ≤ length days.range_counts.now) × (rule * 256 + 256 ≤ length days.ranges.now) }
    requires lawful { Lawful cuts.sizes.now (table_row days.range_counts.now rule 4) cuts.row_starts.now cuts.cuts.now (table_row days.ranges.now rule 256) }
    requires ready { Ready cells.old lists.old memo.old rule used }
    requires node { Node (length cells.old) cuts.sizes.now 4 0 }
    ensures { Drew cells.old lists.old cells.new lists.new memo.new
        (covered_box cuts.entry.sizes.now (table_row days.entry.range_counts.now rule 4) cuts.entry.row_starts.now cuts.entry.cuts.now
        (table_row days.entry.ranges.now rule 256)) rule replaces used result.used result.overflowed }
{
    let row = rule * 4;
    let first = rule * 256;
    draw_rule::draw_rule(
        cells,
        lists,
        memo,
        cuts.sizes,
        &days.range_counts[row..row + 4],
        cuts.row_starts,
        cuts.cuts,
        &days.ranges[first..first + 256],
        rule as u16,
        replaces,
        used,
    )
}

// Draws all rules over boxes that have no list yet. Half of the store's places are for lists from before a rule, the others for those that it makes: where
// more than half are in use after a rule, the lists that no box holds give their room back. At the end they do in any case, so that a day is folded only
// for lists that boxes hold. Answers how many lists they hold, each once; or refuses (6, 14) at the rule after which that was met.
pub fn draw_rules(
    cells: &mut [u16],
    lists: &mut [u16],
    memo: &mut [u16],
    days: RuleDays,
    cuts: Cuts,
) -> Result<usize, Refusal>
    requires to_list { (rs : List Rule) × ToList days.replacing.now days.range_counts.now days.ranges.now cuts.row_starts.now cuts.sizes.now cuts.cuts.now days.rules rs }
    requires no_lists { NoLists cells.old lists.old memo.old cuts.sizes.now }
    ensures { (rs : List Rule)
        → ToList days.entry.replacing.now days.entry.range_counts.now days.entry.ranges.now cuts.entry.row_starts.now cuts.entry.sizes.now cuts.entry.cuts.now days.entry.rules rs
        → Listing cuts.entry.row_starts.now cuts.entry.sizes.now cuts.entry.cuts.now cells.new lists.new rs result }
{
    let most = (memo.len() - 2) / 2;
    let mut used = 0;
    for rule in 0..days.rules {
        let drawn = draw_row(
            cells,
            lists,
            memo,
            days,
            cuts,
            rule,
            days.replacing[rule] == 1,
            used,
        );
        if drawn.overflowed {
            return Err(Refusal {
                reason: Reason::LongList,
                place: rule,
            });
        }
        used = settle(cells, lists, memo, drawn.used, most);
        if lists_over(used) {
            return Err(Refusal {
                reason: Reason::ManyLists,
                place: rule,
            });
        }
    }
    Ok(reclaim(cells, lists, memo, used))
}

// The first engine, over nested columns: equal lists are kept once in a store, each list's day is folded once, and groups are popped column by column. Its
// parts are the crates that it uses here; `plain` does the same over boxes alone.
#![tactic(auto)]

ghost use Rattle.std.specs.Prelude.{List, ◌*◌, ◌≤◌, length};
ghost use Rattle.definition.specs.Rule.{Rule};
ghost use Rattle.paving.specs.Grid.{size_of};
ghost use Rattle.tables.specs.ToDraw.{Lent};
ghost use Rattle.draw_rules.specs.Listing.{NoLists};
ghost use Rattle.paved.specs.Paved.{Paves};

use answers::Refusal;
use draw_rules::draw_rules;
use fold_pages::fold_pages;
use tables::lent::{Cuts, DrainedRules, RuleDays};

// From the tables of the drained rules and the rows of their cuts to pages of the folded rules, in a store and a buffer that are lent: answers how many there are, or
// refuses (6, 14).
pub fn pave(
    rules: DrainedRules,
    cuts: Cuts,
    cells: &mut [u16],
    lists: &mut [u16],
    memo: &mut [u16],
    pages: &mut [u16],
) -> Result<usize, Refusal>
    requires to_draw { (rs : List Rule) × Lent rules cuts rs }
    requires no_lists { NoLists cells.old lists.old memo.old cuts.sizes.now × (13 * size_of cuts.sizes.now 4 ≤ length pages.old) }
    ensures { (rs : List Rule) → Lent rules.entry cuts.entry rs
        → Paves rules.entry.states.now rules.entry.span_counts.now rules.entry.spans.now lists.new pages.new rs result }
{
    let days = RuleDays {
        rules: rules.states.len(),
        replacing: rules.replacing,
        range_counts: rules.range_counts,
        ranges: rules.ranges,
    };
    let used = draw_rules(cells, lists, memo, days, cuts)?;
    let count = fold_pages(rules, lists, used, memo, cuts, cells, pages);
    Ok(count)
}

// A rule drawn over the boxes that its ranges cover: first the columns that each range covers are searched, then the walk over them comes to a box once
// for each combination of one covering range per dimension.
#![tactic(auto)]

mod runs;
mod walk;

ghost use Rattle.std.specs.Prelude.{◌≡◌, length};
ghost use Rattle.paving.specs.Grid.{Node};
ghost use Rattle.list_store.specs.Draw.{Ready, Drew};
ghost use Rattle.draw_rule.specs.Update.{Lawful, covered_box};

use list_store::Drawn;
use runs::find_runs;
use walk::{Plan, draw_weekdays};

// A table for the runs of all dimensions.
fn no_runs() -> [u16; 256]
    ensures { 256 ≡ length result }
{
    [0u16; 256]
}

// Draws a rule over all boxes that its ranges cover. A box's list that has no room for it stays as it is, and the flag is set.
pub fn draw_rule(
    cells: &mut [u16],
    lists: &mut [u16],
    memo: &mut [u16],
    sizes: &[u16],
    range_counts: &[u16],
    row_starts: &[u16],
    cuts: &[u16],
    ranges: &[u16],
    rule: u16,
    replaces: bool,
    used: usize,
) -> Drawn
    requires ready { Ready cells.old lists.old memo.old rule used }
    requires lawful { Lawful sizes.now range_counts.now row_starts.now cuts.now ranges.now }
    requires node { Node (length cells.old) sizes.now 4 0 }
    ensures { Drew cells.old lists.old cells.new lists.new memo.new
        (covered_box sizes.now range_counts.now row_starts.now cuts.now ranges.now) rule replaces used result.used result.overflowed }
{
    let mut runs = no_runs();
    find_runs(&mut runs, sizes, range_counts, row_starts, cuts, ranges);
    let plan = Plan {
        sizes,
        range_counts,
        runs: &runs,
        rule,
        replaces,
        before: used,
    };
    let none = Drawn {
        used,
        overflowed: false,
    };
    draw_weekdays(cells, lists, memo, plan, none, 0, 1)
}

// Room given back where a rule has left more lists in use than a store is to have before the next rule.
ghost use Rattle.std.specs.Prelude.{ℕ, ◌≤◌, ◌<◌, length, get_or};
ghost use Rattle.tables.specs.Sizes.{held_limit};
ghost use Rattle.tables.specs.Lists.{Store};
ghost use Rattle.draw_rules.specs.Listing.{Enough, Settled};

use list_reclaim::reclaim;

// The lists that no box holds go, if more than `most` are in use; answers how many are in use then.
pub fn settle(
    cells: &mut [u16],
    lists: &mut [u16],
    memo: &mut [u16],
    used: usize,
    most: usize,
) -> usize
    requires store { Store cells.old lists.old used × (used < length memo.old) × (used < 65536) × ((k : ℕ) → get_or memo.old k 0 ≤ used) }
    requires most_le_held_limit { (most ≤ held_limit) × Enough (length cells.old) most }
    ensures { Settled cells.old lists.old cells.new lists.new memo.new most used result }
{
    if used <= most {
        return used;
    }
    reclaim(cells, lists, memo, used)
}

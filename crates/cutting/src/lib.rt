// Each dimension cut at both ends of the drained rules' ranges, and the number of boxes between the cuts.
#![tactic(auto)]

ghost use Rattle.std.specs.Prelude.{◌≡◌, List, [], ◌*◌, ◌+◌, ◌≤◌, ◌<◌, ◌^◌, length, get_or};
ghost use Rattle.definition.specs.Rule.{Rule};
ghost use Rattle.definition.specs.Point.{dimensions};
ghost use Rattle.definition.specs.Box.{box_count};
ghost use Rattle.tables.specs.Sizes.{row_places};
ghost use Rattle.tables.specs.Rules.{RuleDays};
ghost use Rattle.tables.specs.Cuts.{CutBy, Cut};
ghost use Rattle.paving_cuts.specs.Cuts.{rowed, start_row};
ghost use Rattle.cutting.specs.Cutting.{Placed, Rows};

use bounded::{Bounded, Month, OrderedWeekday, WeekNum, Year};

// Places a row for each dimension, one behind the other.
fn place_rows(row_starts: &mut [u16], places: u16)
    requires { (length row_starts.old ≡ 4) × (3 * places < 2 ^ 16) }
    ensures { Placed places row_starts.new }
{
    row_starts[0] = 0;
    row_starts[1] = places;
    row_starts[2] = 2 * places;
    row_starts[3] = 3 * places;
}

// Starts one dimension, that of a kind of numbers, with its bounds as its only cuts.
fn start_row<K: Bounded>(cuts: &mut [u16], sizes: &mut [u16], row_starts: &[u16], dimension: usize)
    requires { (dimension < length row_starts.now) × (dimension < length sizes.old) × (get_or row_starts.now dimension 0 + 2 ≤ length cuts.old) }
    ensures { rowed cuts.new sizes.new ≡ start_row row_starts.now dimension K.bounds_of.0 K.bounds_of.1 (rowed cuts.old sizes.old) }
{
    let low = K::BOUND_START.number();
    let high = K::BOUND_UPPER.number();
    paving_cuts::start_row(cuts, sizes, row_starts, dimension, low, high);
}

// Starts each dimension so: weekdays, weeks, months, years.
fn start_rows(cuts: &mut [u16], sizes: &mut [u16], row_starts: &mut [u16], places: u16)
    requires row_starts_len { (length row_starts.old ≡ 4) × (length sizes.old ≡ 4) }
    requires le_places { (2 ≤ places) × (3 * places < 2 ^ 16) × (4 * places ≤ length cuts.old) }
    ensures { Placed places row_starts.new × CutBy row_starts.new sizes.new cuts.new [] dimensions }
{
    place_rows(row_starts, places);
    start_row::<OrderedWeekday>(cuts, sizes, row_starts, 3);
    start_row::<WeekNum>(cuts, sizes, row_starts, 2);
    start_row::<Month>(cuts, sizes, row_starts, 1);
    start_row::<Year>(cuts, sizes, row_starts, 0);
}

// Cuts the rows at the ranges of the first `rules` rules, one rule after the other.
fn cut_rules(
    cuts: &mut [u16],
    sizes: &mut [u16],
    row_starts: &[u16],
    range_counts: &[u16],
    ranges: &[u16],
    rules: usize,
)
    requires rule_days { (rs : List Rule) × RuleDays range_counts.now ranges.now rules rs }
    requires rows { Rows (row_places rules) row_starts.now sizes.old (length cuts.old) × CutBy row_starts.now sizes.old cuts.old [] dimensions }
    ensures { (rs : List Rule) → RuleDays range_counts.now ranges.now rules rs
        → CutBy row_starts.now sizes.new cuts.new rs dimensions }
{
    for rule in 0..rules {
        let from = rule * 4;
        let first = rule * 256;
        paving_cuts::cut_rule(
            cuts,
            sizes,
            row_starts,
            &range_counts[from..from + 4],
            &ranges[first..first + 256],
            4,
        );
    }
}

// Makes the rows of the cuts of the first `rules` rules; answers the number of boxes between them.
pub fn cut_all(
    cuts: &mut [u16],
    sizes: &mut [u16],
    row_starts: &mut [u16],
    range_counts: &[u16],
    ranges: &[u16],
    rules: usize,
) -> u64
    requires rule_days { (rs : List Rule) × RuleDays range_counts.now ranges.now rules rs }
    requires row_starts_len { (length row_starts.old ≡ 4) × (length sizes.old ≡ 4) × (4 * row_places rules ≤ length cuts.old) }
    ensures { (rs : List Rule) → RuleDays range_counts.now ranges.now rules rs
        → (result ≡ box_count dimensions rs) × Cut row_starts.new sizes.new cuts.new rs }
{
    start_rows(cuts, sizes, row_starts, (2 + 64 * rules) as u16);
    cut_rules(cuts, sizes, row_starts, range_counts, ranges, rules);
    paving_cuts::box_count(sizes, 4)
}

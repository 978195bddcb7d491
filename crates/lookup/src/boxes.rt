// From tables and cut dimensions to the state at a moment: a list for each box (6, 14), the rules left (9), and the state by the list of the moment's box.
ghost use Rattle.std.specs.Prelude.{◌≡◌, List, ◌-◌, ◌/◌, ◌^◌, ◌≤◌, ◌<◌};
ghost use Rattle.definition.specs.Rule.{Rule};
ghost use Rattle.definition.specs.Point.{all_bounds};
ghost use Rattle.answers.specs.Numbers.{looked_up};
ghost use Rattle.paving.specs.Grid.{size_of};
ghost use Rattle.draw_rules.specs.Listing.{Places, NoLists};
ghost use Rattle.state_at.specs.Boxes.{InBounds, moment_point};
ghost use Rattle.lookup.specs.Looks.{look_at, Lookable};

use super::RULE_LEFT;
use answers::Answer;
use draw_rules::draw_rules;
use paving::place::size_of;
use state_at::Moment;
use state_at::answer::numbers_of;
use tables::lent::{Cuts, DrainedRules, RuleDays};

// Makes a list for each box (6, 14), in the store that is lent; refuses where a rule is left (9); else answers the state at the moment.
fn look_boxes_in(
    rules: DrainedRules,
    cuts: Cuts,
    cells: &mut [u16],
    lists: &mut [u16],
    memo: &mut [u16],
    rules_left: usize,
    moment: Moment,
) -> Answer
    requires lookable { (rs : List Rule) × Lookable rules cuts rules_left rs }
    requires in_bounds { InBounds all_bounds (moment_point moment) × NoLists cells.old lists.old memo.old cuts.sizes.now }
    ensures { (rs : List Rule) → Lookable rules.entry cuts.entry rules_left rs → looked_up result ≡ look_at rs (moment_point moment) moment.minute }
{
    let days = RuleDays {
        rules: rules.states.len(),
        replacing: rules.replacing,
        range_counts: rules.range_counts,
        ranges: rules.ranges,
    };
    match draw_rules(cells, lists, memo, days, cuts) {
        Err(refusal) => Answer::refused(refusal),
        Ok(_) => {
            if rules_left > 0 {
                return Answer::refused(RULE_LEFT);
            }
            numbers_of(state_at::look(
                rules.states,
                rules.span_counts,
                rules.spans,
                cells,
                lists,
                cuts.row_starts,
                cuts.sizes,
                cuts.cuts,
                moment,
            ))
        }
    }
}

// The same with a store of its own: for so many boxes, in so many places for lists, with a memo of so many. It is never put into its caller, so that a sheet
// with few boxes has small arrays on its stack only.
#[inline(never)]
fn look_stored<const CELLS: usize, const LISTS: usize, const MEMO: usize>(
    rules: DrainedRules,
    cuts: Cuts,
    rules_left: usize,
    moment: Moment,
) -> Answer
    requires lookable { (rs : List Rule) × Lookable rules cuts rules_left rs }
    requires in_bounds { InBounds all_bounds (moment_point moment) }
    requires places { Places (size_of cuts.sizes.now 4) LISTS MEMO ((MEMO - 2) / 2) cuts.sizes.now }
    requires room { (size_of cuts.sizes.now 4 ≤ CELLS) × (CELLS < 2 ^ 32) × (LISTS < 2 ^ 32) }
    ensures { (rs : List Rule) → Lookable rules.entry cuts.entry rules_left rs → looked_up result ≡ look_at rs (moment_point moment) moment.minute }
{
    let mut cells = [0u16; CELLS];
    let mut lists = [0u16; LISTS];
    let mut memo = [0u16; MEMO];
    let boxes = size_of(cuts.sizes, 4);
    look_boxes_in(
        rules,
        cuts,
        &mut cells[..boxes],
        &mut lists,
        &mut memo,
        rules_left,
        moment,
    )
}

// The same, with no larger a store than so many boxes may need.
pub fn look_boxes(rules: DrainedRules, cuts: Cuts, rules_left: usize, moment: Moment) -> Answer
    requires lookable { (rs : List Rule) × Lookable rules cuts rules_left rs }
    requires in_bounds { InBounds all_bounds (moment_point moment) }
    ensures { (rs : List Rule) → Lookable rules.entry cuts.entry rules_left rs → looked_up result ≡ look_at rs (moment_point moment) moment.minute }
{
    match size_of(cuts.sizes, 4) {
        0..=16 => look_stored::<16, 1089, 34>(rules, cuts, rules_left, moment),
        _ => look_stored::<4096, 33825, 1026>(rules, cuts, rules_left, moment),
    }
}

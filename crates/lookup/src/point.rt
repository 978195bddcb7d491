// From tables and cut dimensions to the state at a moment, by the moment's point alone where no list can be refused, else by the lists of all boxes.
ghost use Rattle.std.specs.Prelude.{◌≡◌, List};
ghost use Rattle.definition.specs.Rule.{Rule};
ghost use Rattle.definition.specs.Point.{all_bounds};
ghost use Rattle.answers.specs.Numbers.{looked_up};
ghost use Rattle.state_at.specs.Boxes.{InBounds, moment_point};
ghost use Rattle.lookup.specs.Looks.{look_at, Lookable};

use super::RULE_LEFT;
use super::boxes::look_boxes;
use answers::Answer;
use point_state::few::few_lists;
use point_state::point_state;
use state_at::Moment;
use state_at::answer::numbers_of;
use tables::lent::{Cuts, DrainedRules};

// Where rules and boxes are so few that neither 6 nor 14 can be met, refuses where a rule is left (9), or answers the state at the moment's point.
pub fn look_drained(rules: DrainedRules, cuts: Cuts, rules_left: usize, moment: Moment) -> Answer
    requires lookable { (rs : List Rule) × Lookable rules cuts rules_left rs }
    requires in_bounds { InBounds all_bounds (moment_point moment) }
    ensures { (rs : List Rule) → Lookable rules.entry cuts.entry rules_left rs → looked_up result ≡ look_at rs (moment_point moment) moment.minute }
{
    let few = few_lists(
        cuts.row_starts,
        cuts.sizes,
        cuts.cuts,
        rules.range_counts,
        rules.ranges,
        rules.states.len(),
    );
    if !few {
        return look_boxes(rules, cuts, rules_left, moment);
    }
    if rules_left > 0 {
        return Answer::refused(RULE_LEFT);
    }
    numbers_of(point_state(
        rules.states,
        rules.span_counts,
        rules.spans,
        rules.replacing,
        rules.range_counts,
        rules.ranges,
        moment,
    ))
}

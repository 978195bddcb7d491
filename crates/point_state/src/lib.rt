// The state at one point and minute, straight from the tables of the drained rules: each rule that covers the point is put at the end of the point's list, or
// alone where it replaces. The state goes along with the list, so that no list is kept; and no box is drawn.
#![tactic(auto)]

pub mod few;

ghost use Rattle.std.specs.Prelude.{◌≡◌, cond, List, [], eqb, get_or};
ghost use Rattle.definition.specs.Rule.{Rule};
ghost use Rattle.definition.specs.Point.{list_at};
ghost use Rattle.definition.specs.Lookup.{state_at};
ghost use Rattle.calendar.specs.Dated.{point_list};
ghost use Rattle.plain_lists.specs.Covers.{RangesThere};
ghost use Rattle.state_at.specs.Found.{InTables, looked};
ghost use Rattle.state_at.specs.Boxes.{moment_point};
ghost use Rattle.point_state.specs.Point.{covers_point, after_rule, RuleThere, PointRules};

use calendar::Point;
use plain_lists::cover::holds_in;
use state_at::Moment;
use state_at::list::{CLOSED, over_rule};

// Whether a rule covers a point: in each dimension, years, months, weeks and weekdays, one of its ranges holds the point's number.
fn covers(range_counts: &[u16], ranges: &[u16], rule: usize, point: Point) -> bool
    requires { RangesThere range_counts.now ranges.now rule }
    ensures { result ≡ covers_point range_counts.now ranges.now rule 4 (point_list point) }
{
    holds_in(range_counts, ranges, rule, 0, point.year)
        && holds_in(range_counts, ranges, rule, 1, u16::from(point.month))
        && holds_in(range_counts, ranges, rule, 2, u16::from(point.week))
        && holds_in(range_counts, ranges, rule, 3, u16::from(point.weekday))
}

// The state, none where it is unsettled, by a list that a rule is put at the end of, or alone where it replaces, from the state by the list before it.
fn after_rule(
    states: &[u32],
    span_counts: &[u8],
    spans: &[u64],
    rule: u16,
    replaces: bool,
    minute: u16,
    before: Option<u32>,
) -> Option<u32>
    requires { InTables states.now span_counts.now spans.now rule }
    ensures { result ≡ after_rule states.now span_counts.now spans.now minute rule replaces before }
{
    if replaces {
        return over_rule(states, span_counts, spans, rule, minute, CLOSED);
    }
    over_rule(states, span_counts, spans, rule, minute, before?)
}

// The state at a moment after a rule, from the state before it, which stays where the rule does not cover the moment's point.
fn at_rule(
    states: &[u32],
    span_counts: &[u8],
    spans: &[u64],
    replacing: &[u8],
    range_counts: &[u16],
    ranges: &[u16],
    rule: usize,
    moment: Moment,
    before: Option<u32>,
) -> Option<u32>
    requires { RuleThere states.now span_counts.now spans.now replacing.now range_counts.now ranges.now rule }
    ensures { result ≡ cond (covers_point range_counts.now ranges.now rule 4 (moment_point moment))
        (after_rule states.now span_counts.now spans.now moment.minute rule (eqb (get_or replacing.now rule 0) 1) before) before }
{
    if !covers(range_counts, ranges, rule, moment.point) {
        return before;
    }
    after_rule(
        states,
        span_counts,
        spans,
        rule as u16,
        replacing[rule] == 1,
        moment.minute,
        before,
    )
}

// The state at a moment, by drained rules in tables.
pub fn point_state(
    states: &[u32],
    span_counts: &[u8],
    spans: &[u64],
    replacing: &[u8],
    range_counts: &[u16],
    ranges: &[u16],
    moment: Moment,
) -> Option<u32>
    requires { (rs : List Rule) × PointRules states.now span_counts.now spans.now replacing.now range_counts.now ranges.now rs }
    ensures { (rs : List Rule) → PointRules states.now span_counts.now spans.now replacing.now range_counts.now ranges.now rs
        → looked result ≡ state_at [] (list_at rs (moment_point moment)) moment.minute }
{
    let mut found = Some(CLOSED);
    for rule in 0..states.len() {
        found = at_rule(
            states,
            span_counts,
            spans,
            replacing,
            range_counts,
            ranges,
            rule,
            moment,
            found,
        );
    }
    found
}

// The state at a point and minute: the box that holds the point, and the last span of the box's list that covers the minute.
#![tactic(auto)]

pub mod answer;
pub mod boxes;
pub mod list;

ghost use Rattle.std.specs.Prelude.{ℕ, ◌≡◌, List, []};
ghost use Rattle.definition.specs.Rule.{Rule};
ghost use Rattle.definition.specs.Point.{all_bounds, list_at};
ghost use Rattle.definition.specs.Lookup.{state_at};
ghost use Rattle.tables.specs.Rules.{RuleTimes};
ghost use Rattle.tables.specs.Lists.{BoxLists};
ghost use Rattle.state_at.specs.Found.{looked};
ghost use Rattle.state_at.specs.Boxes.{InBounds, moment_point};

use boxes::box_at;
use calendar::Point;
use list::{CLOSED, list_state};

// A point, and a minute of its days.
#[derive(Clone, Copy, PartialEq, Eq)]
pub struct Moment {
    pub point: Point,
    pub minute: u16,
}

// The number of the state at a moment, none where a span that is not simple leaves it unsettled. It is told by drained rules in tables and the lists
// of their boxes: `cells` has the number of each box's list, 0 for the empty list, whose state is plain Closed.
pub fn look(
    states: &[u32],
    span_counts: &[u8],
    spans: &[u64],
    cells: &[u16],
    lists: &[u16],
    row_starts: &[u16],
    sizes: &[u16],
    cuts: &[u16],
    moment: Moment,
) -> Option<u32>
    requires by_index { (rs : List Rule) × (used : ℕ) × RuleTimes states.now span_counts.now spans.now rs
        × BoxLists row_starts.now sizes.now cuts.now cells.now lists.now used rs }
    requires in_bounds { InBounds all_bounds (moment_point moment) }
    ensures { (rs : List Rule) (used : ℕ) → RuleTimes states.now span_counts.now spans.now rs
        → BoxLists row_starts.now sizes.now cuts.now cells.now lists.now used rs
        → looked result ≡ state_at [] (list_at rs (moment_point moment)) moment.minute }
{
    let box_index = box_at(row_starts, sizes, cuts, moment.point);
    let number = usize::from(cells[box_index]);
    if number == 0 {
        return Some(CLOSED);
    }
    list_state(states, span_counts, spans, lists, number - 1, moment.minute)
}

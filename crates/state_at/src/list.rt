// The state at a minute by a list: rule after rule, and each rule's spans in order.
ghost use Rattle.std.specs.Prelude.{◌≡◌, true, cond, List, [], map, ◌+◌, ◌*◌, ◌≤◌, ◌<◌, length, get_or};
ghost use Rattle.laws.specs.Lists.{All};
ghost use Rattle.definition.specs.Rule.{Rule};
ghost use Rattle.definition.specs.Day.{simple, within};
ghost use Rattle.definition.specs.Lookup.{state_at};
ghost use Rattle.codes.specs.Number.{closed_number, span_at};
ghost use Rattle.tables.specs.Sizes.{list_places, list_limit};
ghost use Rattle.tables.specs.Lists.{list_of};
ghost use Rattle.tables.specs.Rules.{rule_at, RuleTimes};
ghost use Rattle.state_at.specs.Found.{over_spans, over_rule, over_list, InTables, looked};

use codes::{end_of, fixed_time, is_simple, start_of};
use tables::LIST_PLACES;

// Plain Closed.
pub const CLOSED: u32 = 1;

// The state that a simple span leaves at a minute: its own where it covers the minute, else the one before.
fn after_span(span: u64, minute: u16, state: u32, before: u32) -> u32
    requires { simple (span_at span) ≡ true }
    ensures { result ≡ cond (within (span_at span) minute) state before }
{
    let time = fixed_time(minute);
    if start_of(span) <= time && time < end_of(span) {
        state
    } else {
        before
    }
}

// The state after some spans of a rule, all of one state; none after a span that is not simple.
fn over_spans(spans: &[u64], minute: u16, state: u32, before: u32) -> Option<u32>
    ensures { result ≡ over_spans minute state before spans.now }
{
    let mut shown = before;
    for span in spans {
        if !is_simple(*span) {
            return None;
        }
        shown = after_span(*span, minute, state, shown);
    }
    Some(shown)
}

// The state after a rule's spans.
pub fn over_rule(
    states: &[u32],
    span_counts: &[u8],
    spans: &[u64],
    rule: u16,
    minute: u16,
    before: u32,
) -> Option<u32>
    requires { InTables states.now span_counts.now spans.now rule }
    ensures { result ≡ over_rule states.now span_counts.now spans.now minute before rule }
{
    let row = usize::from(rule);
    let first = row * 16;
    let end = first + usize::from(span_counts[row]);
    over_spans(&spans[first..end], minute, states[row], before)
}

// The state after some rules, which are named by their numbers.
fn over_list(
    states: &[u32],
    span_counts: &[u8],
    spans: &[u64],
    rules: &[u16],
    minute: u16,
) -> Option<u32>
    requires { All (InTables states.now span_counts.now spans.now) rules.now }
    ensures { result ≡ over_list states.now span_counts.now spans.now minute closed_number rules.now }
{
    let mut shown = CLOSED;
    for rule in rules {
        shown = over_rule(states, span_counts, spans, *rule, minute, shown)?;
    }
    Some(shown)
}

// The state at a minute by the list at a place.
pub fn list_state(
    states: &[u32],
    span_counts: &[u8],
    spans: &[u64],
    lists: &[u16],
    place: usize,
    minute: u16,
) -> Option<u32>
    requires rule_times { (rs : List Rule) × RuleTimes states.now span_counts.now spans.now rs × All (λ k. k < length rs) (list_of lists.now place) }
    requires list_places_in_bounds { (place * list_places + list_places ≤ length lists.now) × (get_or lists.now (place * list_places) 0 ≤ list_limit) }
    ensures { (rs : List Rule) → RuleTimes states.now span_counts.now spans.now rs → All (λ k. k < length rs) (list_of lists.now place)
        → looked result ≡ state_at [] (map (rule_at rs) (list_of lists.now place)) minute }
{
    let at = place * LIST_PLACES;
    let first = at + 1;
    let end = first + usize::from(lists[at]);
    over_list(states, span_counts, spans, &lists[first..end], minute)
}
